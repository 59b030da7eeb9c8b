//! A sorted map in pages, of values with several versions (`Versioned`): a list of pages, each a sorted `Vec` of entries, so that a new key
//! moves the entries of one page and not all.
#![tactic(auto)]

mod changing;
mod flagging;
mod heads;
mod held;
mod insertion_point;
mod number_set;
mod page;
mod page_list;
mod pages;
mod passing;
mod placing;
mod range;
mod ranging;
mod summary;
mod trimming;
mod value_place;
mod versioned;

pub use held::HELD_MAX;
pub use insertion_point::InsertionPoint;
pub use number_set::NumberSet;
pub use pages::SortedPages;
pub use range::Entries;
pub use value_place::ValuePlace;
pub use versioned::Versioned;
