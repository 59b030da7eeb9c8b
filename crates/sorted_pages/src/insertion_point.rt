//! Where a new key is inserted.

/// Where a key that has no value would be inserted: what its look-up found. It is of use until the map changes.
#[derive(Clone, Copy)]
pub struct InsertionPoint {
    // the page, and the entry of it before which the key's would stand
    pub(crate) page: usize,
    pub(crate) entry: usize,
}
