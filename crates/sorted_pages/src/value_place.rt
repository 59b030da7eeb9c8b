//! Where the value of a key stands.

/// Where the value of a key stands: what its look-up found. It is of use until the map changes.
#[derive(Clone, Copy)]
pub struct ValuePlace {
    // the page, and the entry of it
    pub(crate) page: usize,
    pub(crate) entry: usize,
}
