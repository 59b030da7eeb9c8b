//! Ranges of keys, borrowed and owned.
use crate::keys::{Key, KeyRef};

/// The keys k with `lo <= k < hi`, and where `hi` is `None` all from `lo` on. Where `hi` isn't above `lo` there are none.
#[derive(Clone, Copy)]
pub struct RangeRef<'a> {
    pub lo: KeyRef<'a>,
    pub hi: Option<KeyRef<'a>>,
}

/// A range of keys that owns its bounds.
#[derive(Drop)]
pub struct Range {
    pub lo: Key,
    pub hi: Option<Key>,
}
