//! The commands that a command line can ask for, each with its options.

/// The fewest sectors of a device: a head, and a gate that is closed.
pub(crate) const SECTORS_MIN: u64 = 2;

/// The most sectors of a data file: 2 GiB.
pub(crate) const FILE_SECTORS_MAX: u64 = 4_194_304;

/// The most sectors of a device in memory: 32 MiB.
pub(crate) const MEMORY_SECTORS_MAX: u64 = 65_536;

/// A command, and what it is to work on.
#[derive(Debug, Drop)]
pub enum Invocation<'a> {
    /// Make a data file of so many sectors, 2 to 4,194,304, and format it.
    Create {
        data: &'a str,
        sectors: u64,
    },
    /// Open a data file and serve it at an address.
    Serve {
        data: &'a str,
        listen: &'a str,
    },
    /// Open a data file and count what it holds.
    Check {
        data: &'a str,
    },
    /// Copy the map of the log in one file into a new file, of at least so many sectors, 2 to 4,194,304, where that is asked.
    Compact {
        from: &'a str,
        to: &'a str,
        sectors: Option<u64>,
    },
    /// Run lines over a device in memory of so many sectors, 2 to 65,536.
    Play {
        sectors: u64,
    },
}
