//! Every limit of poolhost, in one place.

/// The least machine memory, in bytes: 16 MiB.
pub const MEMORY_LEAST: u64 = 16_777_216;

/// The greatest machine memory, and the greatest size in a statement, in bytes: 2^50.
pub const MEMORY_MOST: u64 = 1_125_899_906_842_624;

/// The least memory that GENERAL's MAXMEMORYSIZE may leave, in bytes: 1 MiB.
pub const TOTAL_LEAST: u64 = 1_048_576;

/// The greatest number of cores.
pub const CORES_MOST: u32 = 1_024;

/// How many pools there may be, GENERAL counted.
pub const POOLS_MOST: usize = 64;

/// How many users there may be, `dbadmin` counted.
pub const USERS_MOST: usize = 256;

/// How many roles there may be.
pub const ROLES_MOST: usize = 64;

/// How many grants there may be.
pub const GRANTS_MOST: usize = 1_024;

/// How many statements may be accepted since opening.
pub const CHANGES_MOST: u32 = 4_096;

/// How many sessions may be open at a time. Each has one live query at most.
pub const SESSIONS_MOST: usize = 128;

/// How many journal entries a live query keeps free until it ends.
pub const ENTRIES_A_QUERY: usize = 40;

/// How many journal entries an open session keeps free until it is closed.
pub const ENTRIES_A_SESSION: usize = 2;

/// How many journal entries there may be beyond the journal's room and the entries of statements: a live query makes at
/// most 51 after its Submit, of which it keeps 40 free.
pub const ENTRIES_BEYOND: usize = 1_408;

/// The journal room of a script, in entries.
pub const SCRIPT_ROOM: u32 = 65_536;

/// The most moves of one query.
pub const MOVES_MOST: u32 = 16;

/// How many of the last moves are kept.
pub const MOVES_KEPT: usize = 64;

/// The longest chain of CASCADE TO, in pools, the first counted.
pub const CHAIN_MOST: u32 = 8;

/// The longest name, in bytes.
pub const NAME_MOST: usize = 32;

/// The greatest moment, in milliseconds: 10^15.
pub const MOMENT_MOST: u64 = 1_000_000_000_000_000;

/// The greatest PLANNEDCONCURRENCY, MAXCONCURRENCY and EXECUTIONPARALLELISM.
pub const CONCURRENCY_MOST: u32 = 1_000;

/// The least that AUTO in PLANNEDCONCURRENCY stands for.
pub const PLANNED_LEAST: u32 = 4;

/// What AUTO in PLANNEDCONCURRENCY divides the total by, in bytes: 2 GiB.
pub const PLANNED_SHARE: u64 = 2_147_483_648;

/// How much of a memory is used, in percent: GENERAL's MAXMEMORYSIZE of the machine's memory where it is NONE, and a
/// pool's threshold for queueing of what the pool may reach.
pub const USABLE_PERCENT: u64 = 95;

/// The greatest percentage: the whole.
pub const PERCENT_MOST: u64 = 100;

/// One part in so many of the total is left to GENERAL at least: a quarter.
pub const GENERAL_PART: u64 = 4;

/// The greatest PRIORITY. The least is its negative.
pub const PRIORITY_MOST: i32 = 100;

/// The longest RUNTIMEPRIORITYTHRESHOLD, in seconds: a day.
pub const THRESHOLD_SECONDS_MOST: u32 = 86_400;

/// RUNTIMEPRIORITYTHRESHOLD by default, in seconds.
pub const THRESHOLD_SECONDS_DEFAULT: u32 = 2;

/// QUEUETIMEOUT by default, in milliseconds: 5 minutes.
pub const QUEUE_MS_DEFAULT: u64 = 300_000;

/// The longest QUEUETIMEOUT and RUNTIMECAP, in milliseconds: 365 days.
pub const SPAN_MOST: u64 = 31_536_000_000;

/// The most values of a refusal.
pub const VALUES_MOST: usize = 3;

/// The longest script, in bytes: 64 MiB.
pub const SCRIPT_MOST: usize = 67_108_864;

/// The longest line of a script, in bytes, its line end not counted.
pub const LINE_MOST: usize = 65_536;

/// The most digits of a number in a script, leading zeros counted.
pub const DIGITS_MOST: usize = 15;

/// How much of an input is read at a time, in bytes: 16 KiB.
pub const PIECE_MOST: usize = 16_384;

/// The longest file that is loaded, in bytes: 64 MiB.
pub const FILE_MOST: usize = 67_108_864;

/// What a Null measures, in bytes.
pub const NULL_MEASURE: u64 = 1;

/// What an Int measures, in bytes.
pub const INT_MEASURE: u64 = 8;

/// What a Text measures beside its own bytes, in bytes.
pub const TEXT_MEASURE: u64 = 16;

/// What a row measures beside its values, in bytes.
pub const ROW_MEASURE: u64 = 16;

/// How many tables a host may have.
pub const TABLES_MOST: usize = 16;

/// How many columns a table may have.
pub const COLUMNS_MOST: usize = 16;

/// How many rows a table may have.
pub const ROWS_MOST: usize = 1_000_000;

/// The greatest measure of a table, in bytes: 64 MiB.
pub const TABLE_MOST: u64 = 67_108_864;

/// The longest text of a cell, in bytes.
pub const CELL_MOST: usize = 1_024;

/// The most digits of an integer in a cell, leading zeros counted.
pub const CELL_DIGITS_MOST: usize = 19;

/// How many tables a SELECT may name.
pub const SELECT_TABLES_MOST: usize = 3;

/// How many values a row of a SELECT may have: the columns of all its tables.
pub const ROW_VALUES_MOST: usize = 48;

/// How many items a select list may have.
pub const ITEMS_MOST: usize = 32;

/// How many comparisons a SELECT may have.
pub const TESTS_MOST: usize = 32;

/// How many columns a GROUP BY may have.
pub const GROUP_COLUMNS_MOST: usize = 16;

/// How many keys an ORDER BY may have.
pub const ORDER_KEYS_MOST: usize = 16;

/// The greatest LIMIT, in rows.
pub const LIMIT_MOST: u32 = 1_000_000;

/// The greatest measure of an answer, in bytes: 16 MiB.
pub const ANSWER_MOST: u64 = 16_777_216;

/// The least memory that serves a SELECT over one table, in bytes: 1 MiB.
pub const FLOOR_OF_ONE: u64 = 1_048_576;

/// What each further table adds to that, in bytes.
pub const FLOOR_OF_MORE: u64 = 262_144;

/// One part in so many of a grant is what each kind of a query's rows may take: a quarter.
pub const GRANT_PARTS: u64 = 4;

/// What a group is charged for a COUNT or a SUM, in bytes.
pub const COUNT_CHARGE: u64 = 16;

/// What a group is charged for a MIN or a MAX, in bytes: the measure of the longest text of a cell.
pub const BEST_CHARGE: u64 = 1_040;

/// The longest file of a spool, in bytes: 2^63 - 1.
pub const SPOOL_FILE_MOST: u64 = 9_223_372_036_854_775_807;

/// The unit K of sizes, in bytes.
pub const KIBI: u64 = 1_024;

/// The unit M of sizes, in bytes: 2^20.
pub const MEBI: u64 = 1_048_576;

/// The unit G of sizes, in bytes: 2^30.
pub const GIBI: u64 = 1_073_741_824;

/// The unit T of sizes, in bytes: 2^40.
pub const TEBI: u64 = 1_099_511_627_776;

/// A second, in milliseconds.
pub const SECOND_MS: u64 = 1_000;

/// A minute, in milliseconds.
pub const MINUTE_MS: u64 = 60_000;

/// An hour, in milliseconds.
pub const HOUR_MS: u64 = 3_600_000;

/// The most queries of a generated workload.
pub const WORKLOAD_QUERIES_MOST: u32 = 10_000;

/// The most rows of a generated workload's first table.
pub const WORKLOAD_ROWS_MOST: u32 = 100_000;

/// The most workers.
pub const WORKERS_MOST: u32 = 64;
