//! The store's types, its definitions and the laws about them.
//!
//! The definitions stand in `specs/`: maps, a transaction's private copy, histories, dependencies, cycles, the verdict on a commit, the
//! machine that is the specification, the serial order, the grammar of requests, the table of commands and the texts of replies.
#![tactic(auto)]

pub mod commands;
pub mod keys;
pub mod laws;
pub mod maps;
pub mod pair;
pub mod pairs;
pub mod ranges;
pub mod refusals;
pub mod values;
pub mod writes;

pub use commands::{Command, Reply};
pub use keys::{KEY_MAX, Key, KeyRef};
pub use laws::{
    cycle_has_pivot, law_answers_come_before, law_cycle_has_dangerous_pivot,
    law_history_has_serial_order, law_machine_is_serializable, law_restarts_have_one_order,
    law_verdict_is_sound,
};
pub use maps::Map;
pub use pair::Pair;
pub use pairs::Pairs;
pub use ranges::{Range, RangeRef};
pub use refusals::{Memory, Refusal};
pub use values::{FRAME_MAX, PAIRS_MAX, PART_MAX, RANGE_REPLY_MAX, VALUE_MAX};
pub use writes::Write;
