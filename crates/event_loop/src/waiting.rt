//! How long the next poll may wait.
ghost use Rattle.std.specs.Prelude.{◌≡◌};
ghost use Rattle.event_loop.specs.Waits.{nanos_of, own_limit, shorter};

use crate::connections::Backlog;
use std::time::Duration;

/// After an accept that failed the loop tries again within so many milliseconds.
pub const RETRY_AFTER_MILLIS: u64 = 100;

/// How long the next poll waits, without end where it is `None`: not at all where there is work or the backlog is `More`, no longer than
/// `RETRY_AFTER_MILLIS` where it is `Failed`, and never longer than the caller's timeout.
pub(crate) fn longest_wait(
    backlog: Backlog,
    has_work: bool,
    timeout: Option<Duration>,
) -> Option<Duration>
    ensures { nanos_of result ≡ shorter (own_limit backlog has_work) (nanos_of timeout) }
{
    let most = match backlog {
        _ if has_work => Duration::ZERO,
        Backlog::More => Duration::ZERO,
        Backlog::Failed => Duration::from_millis(RETRY_AFTER_MILLIS),
        Backlog::Empty => return timeout,
    };
    Some(match timeout {
        Some(timeout) => timeout.min(most),
        None => most,
    })
}
