//! Limits: how much a command takes.

/// The most bytes of a file.
pub const FILE_BYTES: u64 = 1048576;

/// The most instructions of a region.
pub const ITEMS: usize = 64;

/// The most instructions of a region that is read: each may name seven symbolic registers, and the
/// numbers of these have 16 bits.
pub const READ_ITEMS: usize = 8192;

/// The most items of a set of items: their numbers are below it.
pub const SET_ITEMS: usize = 192;

/// The most instructions of a region that `opt` reschedules.
pub const SEARCHED: usize = 8;

/// The most stalls of a schedule that `opt` looks for, where a command says nothing of them.
pub const STALLS: u32 = 64;

/// The most turns of a loop that `run` takes.
pub const TURNS: u32 = 10000000;

/// The most that the statements of an expansion add up to, each with its bytes and one more.
pub const EXPANSION_SUM: u32 = 1048576;

/// How deep macros may invoke one another.
pub const EXPANSION_DEPTH: u32 = 16;
