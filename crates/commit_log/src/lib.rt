//! A write-ahead log of write sets on a row of sectors.
//!
//! Sector 0 is the head. Behind it stand the records, each a gate sector and the sectors of its body, and then a closed gate. A record is
//! appended with its gate closed; once its body and the closed gate behind it are durable, its gate is opened. So a crash leaves it whole
//! or not at all, with no premise on digests. The digests, each over the one before it, find changed bytes.
#![tactic(auto)]

mod copying;
mod decode;
mod encode;
mod faults;
mod formats;
mod formatting;
mod laws;
mod log;
mod pairs;
mod read;
mod record;
mod state;

pub use copying::{copy_into, copy_sectors};
pub use encode::payload_len;
pub use faults::{AppendFault, LogFault, Unopened};
pub use formats::LogFormat;
pub use formatting::format;
pub use laws::law_image_has_one_list;
pub use log::Log;
pub use read::read_map;
