//! The rows: each line with what it is answered. A row starts over an empty map and a device of 4,096 sectors unless it says otherwise.

/// A line and its reply.
pub type Line = (&'static str, &'static str);

/// The sectors of a row's device.
pub const SECTORS: u64 = 4096;

pub static COMMITTED_WRITE_IS_SEEN: [Line; 5] = [
    ("1 BEGIN", "+OK"),
    ("1 SET a 1", "+OK"),
    ("1 COMMIT", ":1"),
    ("2 BEGIN", "+OK"),
    ("2 GET a", "$1 1"),
];

pub static SNAPSHOT_IS_KEPT: [Line; 5] = [
    ("1 BEGIN", "+OK"),
    ("2 BEGIN", "+OK"),
    ("2 SET a 1", "+OK"),
    ("2 COMMIT", ":1"),
    ("1 GET a", "$-1"),
];

pub static OWN_WRITE_IS_PRIVATE: [Line; 5] = [
    ("1 BEGIN", "+OK"),
    ("1 SET a 1", "+OK"),
    ("1 GET a", "$1 1"),
    ("2 BEGIN", "+OK"),
    ("2 GET a", "$-1"),
];

pub static FIRST_COMMITTER_WINS: [Line; 7] = [
    ("1 BEGIN", "+OK"),
    ("2 BEGIN", "+OK"),
    ("1 SET k 1", "+OK"),
    ("2 SET k 2", "+OK"),
    ("1 COMMIT", ":1"),
    ("2 COMMIT", "-CONFLICT overwritten 6b"),
    ("2 GET k", "-ERR none"),
];

/// Of two overwritten keys the refusal names the least.
pub static LEAST_OVERWRITTEN_KEY_IS_NAMED: [Line; 8] = [
    ("1 BEGIN", "+OK"),
    ("2 BEGIN", "+OK"),
    ("1 SET k 1", "+OK"),
    ("1 SET j 1", "+OK"),
    ("2 SET k 2", "+OK"),
    ("2 SET j 2", "+OK"),
    ("1 COMMIT", ":1"),
    ("2 COMMIT", "-CONFLICT overwritten 6a"),
];

pub static WRITE_SKEW: [Line; 10] = [
    ("1 BEGIN", "+OK"),
    ("1 GET x", "$-1"),
    ("1 GET y", "$-1"),
    ("2 BEGIN", "+OK"),
    ("2 GET x", "$-1"),
    ("2 GET y", "$-1"),
    ("1 SET x 1", "+OK"),
    ("2 SET y 1", "+OK"),
    ("1 COMMIT", ":1"),
    ("2 COMMIT", "-CONFLICT pivot self"),
];

pub static PHANTOM_SKEW: [Line; 8] = [
    ("1 BEGIN", "+OK"),
    ("1 RANGE a c 10", "*0"),
    ("2 BEGIN", "+OK"),
    ("2 RANGE a c 10", "*0"),
    ("1 SET a 1", "+OK"),
    ("2 SET b 1", "+OK"),
    ("1 COMMIT", ":1"),
    ("2 COMMIT", "-CONFLICT pivot self"),
];

/// A reader of a first page, and a writer behind it.
pub static RANGE_AT_ITS_LIMIT_MARKS_LESS: [Line; 13] = [
    ("9 BEGIN", "+OK"),
    ("9 SET a 1", "+OK"),
    ("9 SET b 1", "+OK"),
    ("9 SET c 1", "+OK"),
    ("9 COMMIT", ":1"),
    ("1 BEGIN", "+OK"),
    ("2 BEGIN", "+OK"),
    ("1 RANGE a \"\" 1", "*2 $1 a $1 1"),
    ("1 SET z 1", "+OK"),
    ("2 RANGE z \"\" 5", "*0"),
    ("2 SET b 2", "+OK"),
    ("1 COMMIT", ":2"),
    ("2 COMMIT", ":3"),
];

/// The same, and a writer of the page's last key.
pub static LAST_KEY_OF_A_PAGE_IS_MARKED: [Line; 13] = [
    ("9 BEGIN", "+OK"),
    ("9 SET a 1", "+OK"),
    ("9 SET b 1", "+OK"),
    ("9 SET c 1", "+OK"),
    ("9 COMMIT", ":1"),
    ("1 BEGIN", "+OK"),
    ("2 BEGIN", "+OK"),
    ("1 RANGE a \"\" 1", "*2 $1 a $1 1"),
    ("1 SET z 1", "+OK"),
    ("2 RANGE z \"\" 5", "*0"),
    ("2 SET a 2", "+OK"),
    ("1 COMMIT", ":2"),
    ("2 COMMIT", "-CONFLICT pivot self"),
];

/// A range that found as many pairs as its limit, though there are no more, and a writer behind the last of them.
pub static FULL_PAGE_ENDS_AT_ITS_LAST_KEY: [Line; 12] = [
    ("9 BEGIN", "+OK"),
    ("9 SET a 1", "+OK"),
    ("9 SET b 1", "+OK"),
    ("9 COMMIT", ":1"),
    ("1 BEGIN", "+OK"),
    ("2 BEGIN", "+OK"),
    ("1 RANGE a c 2", "*4 $1 a $1 1 $1 b $1 1"),
    ("1 SET z 1", "+OK"),
    ("2 GET z", "$-1"),
    ("2 SET b0 1", "+OK"),
    ("1 COMMIT", ":2"),
    ("2 COMMIT", ":3"),
];

/// The same with a greater limit: the range is marked whole.
pub static RANGE_BELOW_ITS_LIMIT_MARKS_ALL: [Line; 12] = [
    ("9 BEGIN", "+OK"),
    ("9 SET a 1", "+OK"),
    ("9 SET b 1", "+OK"),
    ("9 COMMIT", ":1"),
    ("1 BEGIN", "+OK"),
    ("2 BEGIN", "+OK"),
    ("1 RANGE a c 3", "*4 $1 a $1 1 $1 b $1 1"),
    ("1 SET z 1", "+OK"),
    ("2 GET z", "$-1"),
    ("2 SET b0 1", "+OK"),
    ("1 COMMIT", ":2"),
    ("2 COMMIT", "-CONFLICT pivot self"),
];

pub static READ_ONLY_ANOMALY: [Line; 13] = [
    ("1 BEGIN", "+OK"),
    ("1 GET x", "$-1"),
    ("1 GET y", "$-1"),
    ("2 BEGIN", "+OK"),
    ("2 GET y", "$-1"),
    ("2 SET y 1", "+OK"),
    ("2 COMMIT", ":1"),
    ("3 BEGIN", "+OK"),
    ("3 GET x", "$-1"),
    ("3 GET y", "$1 1"),
    ("3 COMMIT", ":2"),
    ("1 SET x 1", "+OK"),
    ("1 COMMIT", "-CONFLICT pivot self"),
];

pub static READER_FINDS_A_COMMITTED_PIVOT: [Line; 10] = [
    ("1 BEGIN", "+OK"),
    ("2 BEGIN", "+OK"),
    ("3 BEGIN", "+OK"),
    ("1 SET m 1", "+OK"),
    ("1 COMMIT", ":1"),
    ("2 GET m", "$-1"),
    ("2 SET k 1", "+OK"),
    ("2 COMMIT", ":2"),
    ("3 GET k", "$-1"),
    ("3 COMMIT", "-CONFLICT pivot 2"),
];

/// The pivot is harmless, since the one whose key it read has not committed yet.
pub static WRITER_FINDS_A_COMMITTED_PIVOT: [Line; 10] = [
    ("1 BEGIN", "+OK"),
    ("2 BEGIN", "+OK"),
    ("3 BEGIN", "+OK"),
    ("1 GET k", "$-1"),
    ("1 COMMIT", ":1"),
    ("2 GET m", "$-1"),
    ("2 SET k 1", "+OK"),
    ("2 COMMIT", ":2"),
    ("3 SET m 1", "+OK"),
    ("3 COMMIT", ":3"),
];

pub static ONE_AFTER_THE_OTHER: [Line; 10] = [
    ("1 BEGIN", "+OK"),
    ("1 GET x", "$-1"),
    ("1 GET y", "$-1"),
    ("1 SET x 1", "+OK"),
    ("1 COMMIT", ":1"),
    ("2 BEGIN", "+OK"),
    ("2 GET x", "$1 1"),
    ("2 GET y", "$-1"),
    ("2 SET y 1", "+OK"),
    ("2 COMMIT", ":2"),
];

/// A store that reclaims has forgotten the first transaction before the last commit: behind the eighth line it keeps one record.
pub static PIVOT_AFTER_ITS_NEIGHBOUR_WAS_FORGOTTEN: [Line; 10] = [
    ("1 BEGIN", "+OK"),
    ("2 BEGIN", "+OK"),
    ("1 GET k", "$-1"),
    ("1 COMMIT", ":1"),
    ("3 BEGIN", "+OK"),
    ("2 GET m", "$-1"),
    ("2 SET k 1", "+OK"),
    ("2 COMMIT", ":2"),
    ("3 SET m 1", "+OK"),
    ("3 COMMIT", ":3"),
];

/// A store that reclaims has forgotten the record of commit 1 before the last commit, and still knows that the pivot read its key: behind
/// the eighth line it keeps one record.
pub static PIVOT_AFTER_ITS_TARGET_WAS_FORGOTTEN: [Line; 10] = [
    ("1 BEGIN", "+OK"),
    ("2 BEGIN", "+OK"),
    ("2 SET m 1", "+OK"),
    ("2 COMMIT", ":1"),
    ("3 BEGIN", "+OK"),
    ("1 GET m", "$-1"),
    ("1 SET k 1", "+OK"),
    ("1 COMMIT", ":2"),
    ("3 GET k", "$-1"),
    ("3 COMMIT", "-CONFLICT pivot 2"),
];

/// The last to commit is a pivot, but the reader before it committed earlier than the writer behind it.
pub static EARLIER_READER_IS_HARMLESS: [Line; 10] = [
    ("1 BEGIN", "+OK"),
    ("2 BEGIN", "+OK"),
    ("3 BEGIN", "+OK"),
    ("1 GET k", "$-1"),
    ("1 COMMIT", ":1"),
    ("2 SET m 1", "+OK"),
    ("2 COMMIT", ":2"),
    ("3 GET m", "$-1"),
    ("3 SET k 1", "+OK"),
    ("3 COMMIT", ":3"),
];

/// The first to commit is a pivot, but the writer behind it commits after it.
pub static PIVOT_BEFORE_ITS_TARGET_IS_HARMLESS: [Line; 10] = [
    ("1 BEGIN", "+OK"),
    ("2 BEGIN", "+OK"),
    ("3 BEGIN", "+OK"),
    ("1 GET m", "$-1"),
    ("1 SET k 1", "+OK"),
    ("1 COMMIT", ":1"),
    ("2 SET m 1", "+OK"),
    ("2 COMMIT", ":2"),
    ("3 GET k", "$-1"),
    ("3 COMMIT", ":3"),
];

/// The first to commit is a pivot, but the writer behind it commits last.
pub static PIVOT_WITH_A_LATER_WRITER_IS_HARMLESS: [Line; 10] = [
    ("1 BEGIN", "+OK"),
    ("2 BEGIN", "+OK"),
    ("3 BEGIN", "+OK"),
    ("1 GET m", "$-1"),
    ("1 SET k 1", "+OK"),
    ("1 COMMIT", ":1"),
    ("2 GET k", "$-1"),
    ("2 COMMIT", ":2"),
    ("3 SET m 1", "+OK"),
    ("3 COMMIT", ":3"),
];

pub static RANGE_BOUNDS_AND_LIMITS: [Line; 14] = [
    ("9 BEGIN", "+OK"),
    ("9 SET a 1", "+OK"),
    ("9 SET b 2", "+OK"),
    ("9 COMMIT", ":1"),
    ("1 BEGIN", "+OK"),
    ("1 RANGE b b 5", "*0"),
    ("1 RANGE c a 5", "*0"),
    ("1 RANGE a \"\" 5", "*4 $1 a $1 1 $1 b $1 2"),
    ("1 RANGE a \"\" 1", "*2 $1 a $1 1"),
    ("1 RANGE a b 128", "*2 $1 a $1 1"),
    ("1 RANGE a b 0", "-ERR limit"),
    ("1 RANGE a b 129", "-ERR limit"),
    ("1 RANGE a b 01", "-ERR limit"),
    ("1 RANGE \"\" b 5", "-ERR key"),
];

/// The sectors of the device of `LOG_FULL`.
pub const LOG_FULL_SECTORS: u64 = 4;

/// Over a device of `LOG_FULL_SECTORS`.
pub static LOG_FULL: [Line; 9] = [
    ("1 BEGIN", "+OK"),
    ("1 SET a 1", "+OK"),
    ("1 COMMIT", ":1"),
    ("1 BEGIN", "+OK"),
    ("1 SET a 2", "+OK"),
    ("1 COMMIT", "-FULL log"),
    ("1 BEGIN", "+OK"),
    ("1 GET a", "$1 1"),
    ("1 COMMIT", ":2"),
];

pub static REFUSALS_OUTSIDE_A_TRANSACTION: [Line; 8] = [
    ("1 GET \"\"", "-ERR key"),
    ("1 GET a", "-ERR none"),
    ("1 GET", "-ERR arguments"),
    ("1 FOO", "-ERR command"),
    ("1 PING", "+PONG"),
    ("1 ABORT", "-ERR none"),
    ("1 begin", "+OK"),
    ("1 BEGIN", "-ERR open"),
];

/// Over a device whose next call, the first of all, fails.
pub static DEVICE_FAULT: [Line; 8] = [
    ("1 BEGIN", "+OK"),
    ("2 BEGIN", "+OK"),
    ("1 SET a 1", "+OK"),
    ("2 SET b 1", "+OK"),
    ("1 COMMIT", "-STORE fault"),
    ("2 GET b", "$1 1"),
    ("2 COMMIT", "-STORE stopped"),
    ("2 BEGIN", "-STORE stopped"),
];

pub static DELETED_KEY: [Line; 12] = [
    ("9 BEGIN", "+OK"),
    ("9 SET a 1", "+OK"),
    ("9 COMMIT", ":1"),
    ("1 BEGIN", "+OK"),
    ("1 DEL a", "+OK"),
    ("1 GET a", "$-1"),
    ("1 RANGE a \"\" 9", "*0"),
    ("2 BEGIN", "+OK"),
    ("2 GET a", "$1 1"),
    ("1 COMMIT", ":2"),
    ("2 GET a", "$1 1"),
    ("2 COMMIT", ":3"),
];

pub static SERIAL_ORDER_IS_NOT_COMMIT_ORDER: [Line; 7] = [
    ("1 BEGIN", "+OK"),
    ("2 BEGIN", "+OK"),
    ("2 SET a 1", "+OK"),
    ("2 COMMIT", ":1"),
    ("1 GET a", "$-1"),
    ("1 SET b 1", "+OK"),
    ("1 COMMIT", ":2"),
];

pub static REAL_TIME_IS_NOT_COMMIT_ORDER: [Line; 10] = [
    ("1 BEGIN", "+OK"),
    ("1 GET a", "$-1"),
    ("2 BEGIN", "+OK"),
    ("2 SET a 1", "+OK"),
    ("2 COMMIT", ":1"),
    ("3 BEGIN", "+OK"),
    ("3 GET a", "$1 1"),
    ("3 SET b 1", "+OK"),
    ("3 COMMIT", ":2"),
    ("1 COMMIT", ":3"),
];

pub static RANGE_OVER_OWN_WRITES: [Line; 12] = [
    ("9 BEGIN", "+OK"),
    ("9 SET b 1", "+OK"),
    ("9 SET d 1", "+OK"),
    ("9 COMMIT", ":1"),
    ("1 BEGIN", "+OK"),
    ("1 SET a 2", "+OK"),
    ("1 DEL b", "+OK"),
    ("1 SET d 3", "+OK"),
    ("1 SET e 4", "+OK"),
    ("1 RANGE a \"\" 9", "*6 $1 a $1 2 $1 d $1 3 $1 e $1 4"),
    ("1 RANGE a \"\" 2", "*4 $1 a $1 2 $1 d $1 3"),
    ("1 RANGE b c 5", "*0"),
];

/// Of a store that reclaims: behind the tenth line two versions of the key are kept, one of them for an open transaction, and the
/// records of two commits; behind the last line one version and no record.
pub static OLD_VERSION_IS_KEPT: [Line; 12] = [
    ("1 BEGIN", "+OK"),
    ("1 SET a 1", "+OK"),
    ("1 COMMIT", ":1"),
    ("1 BEGIN", "+OK"),
    ("2 BEGIN", "+OK"),
    ("2 SET a 2", "+OK"),
    ("2 COMMIT", ":2"),
    ("2 BEGIN", "+OK"),
    ("2 SET a 3", "+OK"),
    ("2 COMMIT", ":3"),
    ("1 GET a", "$1 1"),
    ("1 ABORT", "+OK"),
];

/// A line that is asked for each number from the first to before the second, which it has in the place of its `#`.
pub type Counted = (u16, u16, Line);

pub static SIXTY_FOUR_WRITES: [Counted; 4] = [
    (0, 1, ("1 BEGIN", "+OK")),
    (0, 64, ("1 SET k# v", "+OK")),
    (64, 65, ("1 SET k# v", "-FULL writes")),
    (7, 8, ("1 SET k# w", "+OK")),
];

pub static SIXTY_FOUR_TRANSACTIONS: [Counted; 4] = [
    (1, 65, ("# BEGIN", "+OK")),
    (65, 66, ("# BEGIN", "-FULL transactions")),
    (1, 2, ("# ABORT", "+OK")),
    (65, 66, ("# BEGIN", "+OK")),
];

pub static TWO_HUNDRED_FIFTY_SIX_MARKS: [Counted; 7] = [
    (0, 1, ("1 BEGIN", "+OK")),
    (0, 1, ("1 SET z 1", "+OK")),
    (0, 256, ("1 GET k#", "$-1")),
    (256, 257, ("1 GET k#", "-FULL marks")),
    (7, 8, ("1 GET k#", "$-1")),
    (0, 1, ("1 GET z", "$1 1")),
    (0, 1, ("1 RANGE a b 1", "-FULL marks")),
];
