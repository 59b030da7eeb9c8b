//! What help says after the options: examples, and what the user of a command must know.

/// After the help of the program.
pub(crate) const AFTER_PROGRAM: &str = "\
Examples:
  ssikvd create --data shop.data --sectors 1024
  ssikvd serve --data shop.data --listen 127.0.0.1:7777
  ssikvd check --data shop.data
  ssikvd compact --from shop.data --to shop.new --sectors 2048
  printf '1 BEGIN\\n1 SET a 22\\n1 COMMIT\\n' | ssikvd play

Exit status:
  0  the command did its work, or printed help or the version
  1  the command line was refused
  2  a line of a script was refused
  3  memory, a file, the log or a socket failed";

/// After the help of `create`.
pub(crate) const AFTER_CREATE: &str = "\
Example:
  ssikvd create --data shop.data --sectors 1024";

/// After the help of `serve`.
pub(crate) const AFTER_SERVE: &str = "\
One server for a file: the program does not stop a second one, which would write over commits.
There is no authentication and no TLS: whoever can connect reads and writes everything.

Example:
  ssikvd serve --data shop.data --listen 127.0.0.1:7777";

/// After the help of `check`.
pub(crate) const AFTER_CHECK: &str = "\
It prints one line: records R keys K sectors U of N, where U of the N sectors are used.

Example:
  ssikvd check --data shop.data";

/// After the help of `compact`.
pub(crate) const AFTER_COMPACT: &str = "\
Stop the server first: what it commits meanwhile may be missing from the new file.
The new file never has fewer sectors than the old one.

Example:
  ssikvd compact --from shop.data --to shop.new --sectors 2048";

/// After the help of `play`.
pub(crate) const AFTER_PLAY: &str = "\
A line is a session's number and one request of it.

Example:
  printf '1 BEGIN\\n1 SET a 22\\n1 COMMIT\\n' | ssikvd play";
