//! Sessions over connections whose calls don't block: bytes are read into a session, its requests are served, and its replies are written,
//! as far as the connection goes.
#![tactic(auto)]

mod answers;
mod buffered;
mod buffered_bytes;
mod counts;
mod driving;
mod entries;
mod laws;
mod stream;

pub use answers::{Call, Progress, ReadAnswer, WriteAnswer};
pub use buffered::{BufferedStream, Flushed, HEAVY_TURNS, LIGHT_MAX, SHARE_MAX};
pub use buffered_bytes::BUFFERED_MAX;
pub use counts::CallCounts;
pub use driving::{LOOKED_MAX, READ_MAX, REQUESTS_MAX, drive};
pub use entries::{Entry, EntryState, drive_ready, drive_ready_then, end_drive};
pub use laws::{law_leads_are_runs, law_shares};
pub use stream::{ShareEnd, Stream};
