//! What a command asks for.
ghost use Rattle.std.specs.Prelude.{◌≡◌};
ghost use Rattle.command_words.specs.declared.options.WordsErr.TheVariants.{NoMemory as OutOfMemory};

use crate::WordText;
use sl_base::NoMemory;
use sl_model::instruction::ArchName;
use sl_model::register::RegSet;
use std::alloc::AllocError;

/// The most cycles of latency of the core `one:L`.
pub const LATENCY: u64 = 255;

/// The most stalls that `--max-stalls` takes.
pub const MOST_STALLS: u64 = 255;

/// The most lists of a tree that `--budget` takes.
pub const MOST_BUDGET: u64 = 1000000000;

/// How many lists of a tree a command looks at which says nothing of them.
pub const BUDGET_UNSAID: u64 = 1000000;

/// The most workers that `--workers` takes.
pub const MOST_WORKERS: u64 = 64;

/// The turns of a loop that a command takes which says nothing of them.
pub const TURNS_UNSAID: u64 = 1000000;

/// The most items of the kernel of `demo`.
pub const MOST_COUNT: u64 = 64;

/// What a command does.
#[derive(Clone, Copy)]
pub enum Mode {
    /// Says what the region costs as it stands.
    Cost,
    /// Writes the file with the region rescheduled.
    Opt,
    /// Runs the region on a state.
    Run,
    /// Makes a kernel from two numbers, and says what rescheduling it gains.
    Demo,
}

/// The core that a command names.
#[derive(Drop)]
pub enum CoreWord {
    /// One unit of width one, with a latency from 1 to 255 cycles.
    Plain { latency: u64 },
    /// The core of a table in a file; the name is not empty, and not `-`.
    File { name: WordText },
}

/// What a command asks for. An option that isn't said has its usual value here, or None where
/// it has none.
#[derive(Drop)]
pub struct Options {
    /// What is done.
    pub mode: Mode,
    /// The architecture of the region.
    pub arch: ArchName,
    /// The name of the file, or `-` for standard input; for `demo`, which reads none, `demo`.
    pub input: WordText,
    /// The core: there is none exactly for `run`.
    pub core: Option<CoreWord>,
    /// The label at the region's start.
    pub start: WordText,
    /// The label behind its end, which is another one.
    pub end: WordText,
    /// The registers that live on behind the region, where they are said.
    pub live: Option<RegSet>,
    /// The registers that schedules may write beside those that the region writes.
    pub free: RegSet,
    /// The most stalls of a schedule: at most 255.
    pub most: u32,
    /// How many lists of choices are looked at in a tree: at most 1000000000.
    pub budget: u64,
    /// How many workers share the trees of a level: from 1 to 64.
    pub workers: u32,
    /// The name of the state file: there is one exactly for `run`.
    pub state: Option<WordText>,
    /// The most turns of a loop that are run: at most 10000000.
    pub turns: u64,
    /// What the kernel of `demo` is drawn from.
    pub key: u64,
    /// How many items it has: at most 64.
    pub count: u64,
}

/// Why words were not read.
#[derive(Clone, Copy, Debug, PartialEq, Eq, Drop)]
pub enum WordsErr {
    /// They are wrong.
    Usage,
    /// Memory ran out.
    NoMemory,
}

impl From<NoMemory> for WordsErr {
    ghost from_gives = { λ _ e. e ≡ OutOfMemory };

    fn from(_error: NoMemory) -> WordsErr {
        WordsErr::NoMemory
    }
}

impl From<AllocError> for WordsErr {
    ghost from_gives = { λ _ e. e ≡ OutOfMemory };

    fn from(_error: AllocError) -> WordsErr {
        WordsErr::NoMemory
    }
}
