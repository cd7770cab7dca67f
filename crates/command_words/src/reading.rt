//! Reading the words of a command.
ghost use Rattle.std.specs.Prelude.{◌≡◌, IfOk, map, string_bytes, is_some};
ghost use Rattle.std.specs.List.{list_all};
ghost use Rattle.clap.specs.Words.{found_of, first_value};
ghost use Rattle.sl_model.specs.Answers.{Gives};
ghost use Rattle.command_words.specs.Answer.{usage_of};
ghost use Rattle.command_words.specs.Command as spec;
ghost use Rattle.command_words.specs.Command.{command_of};
ghost use Rattle.command_words.specs.Table as table;
ghost use Rattle.command_words.specs.TableViews.{line_value};
ghost use Rattle.command_words.specs.Whole.{IsWhole};

use crate::labels::labels_of;
use crate::parsing::said_by;
use crate::registers::{free_of, live_of};
use crate::table::{OptionLine, keeps, option_lines, use_by};
use crate::values::{architecture, core_of, input_of, mode_of, number_or, state_of};
use crate::{
    BUDGET_UNSAID, CoreWord, MOST_BUDGET, MOST_COUNT, MOST_STALLS, MOST_WORKERS, Mode, Options,
    TURNS_UNSAID, WordText, WordsErr,
};
use clap::ArgMatches;
use sl_isa::{ArchName, RegSet};
use sl_model::limits::{STALLS, TURNS};
use std::alloc::Global;

// Whether a mode takes an option where it is said, and doesn't need it where it isn't.
fn suits_line(mode: Mode, matches: &ArgMatches<'_>, line: &OptionLine) -> bool
    ensures { result ≡ table.keeps (table.use_by mode (line_value line.now))
        (is_some (first_value (found_of matches.now) line.now.name.now)) }
{
    keeps(use_by(mode, line), matches.get_str(line.name).is_some())
}

// Whether that holds of some options.
fn suits_lines(mode: Mode, matches: &ArgMatches<'_>, lines: &[OptionLine]) -> bool
    ensures { result ≡ list_all (λ line. table.keeps (table.use_by mode (line_value line))
        (is_some (first_value (found_of matches.now) line.name.now))) lines.now }
{
    for line in lines {
        if !suits_line(mode, matches, line) {
            return false;
        }
    }
    true
}

// A mode that takes what is said, and has what it needs.
fn suited(matches: &ArgMatches<'_>, mode: Mode) -> Result<Mode, WordsErr>
    ensures { Gives usage_of (λ mode. mode) result
        (spec.suited (first_value (found_of matches.now)) mode) }
{
    if !suits_lines(mode, matches, &option_lines()) {
        return Err(WordsErr::Usage);
    }
    Ok(mode)
}

// The mode that is said, where everything beside it suits it.
#[tactic(auto, unfolding(crate::specs::Command::mode_by))]
fn mode_by(matches: &ArgMatches<'_>) -> Result<Mode, WordsErr>
    ensures { Gives usage_of (λ mode. mode) result
        (spec.mode_by (first_value (found_of matches.now))) }
{
    let mode = mode_of(matches.get_str("MODE"))?;
    suited(matches, mode)
}

// The input, the core and the state.
#[tactic(auto, unfolding(crate::specs::Command::files_by))]
fn files_by(
    alloc: Global,
    mode: Mode,
    matches: &ArgMatches<'_>,
) -> Result<(WordText, Option<CoreWord>, Option<WordText>), WordsErr>
    ensures { Gives usage_of (λ files. files) result
        (spec.files_by mode (first_value (found_of matches.now))) }
{
    let input = input_of(alloc, mode, matches.get_str("INPUT"))?;
    let core = core_of(alloc, matches.get_str("core"))?;
    let state = state_of(alloc, matches.get_str("state"))?;
    Ok((input, core, state))
}

// The registers that live on, and those that are free.
#[tactic(auto, unfolding(crate::specs::Command::registers_by))]
fn registers_by(
    alloc: Global,
    arch: ArchName,
    matches: &ArgMatches<'_>,
) -> Result<(Option<RegSet>, RegSet), WordsErr>
    ensures { Gives usage_of (λ sets. sets) result
        (spec.registers_by arch (first_value (found_of matches.now))) }
{
    let live = live_of(alloc, arch, matches.get_str("live"))?;
    let free = free_of(alloc, arch, matches.get_str("free"))?;
    Ok((live, free))
}

// The most stalls, the budget, the workers, and the most turns.
#[tactic(auto, unfolding(crate::specs::Command::numbers_by))]
fn numbers_by(matches: &ArgMatches<'_>) -> Result<(u32, u64, u32, u64), WordsErr>
    ensures { Gives usage_of (λ numbers. numbers) result
        (spec.numbers_by (first_value (found_of matches.now))) }
{
    let stalls = number_or(
        0,
        u64::from(STALLS),
        MOST_STALLS,
        matches.get_str("max-stalls"),
    )?;
    let budget = number_or(1, BUDGET_UNSAID, MOST_BUDGET, matches.get_str("budget"))?;
    let workers = number_or(1, 1, MOST_WORKERS, matches.get_str("workers"))?;
    let turns = number_or(0, TURNS_UNSAID, u64::from(TURNS), matches.get_str("turns"))?;
    Ok((stalls as u32, budget, workers as u32, turns))
}

// The key of a kernel, and how many items it has.
#[tactic(auto, unfolding(crate::specs::Command::kernel_by))]
fn kernel_by(matches: &ArgMatches<'_>) -> Result<(u64, u64), WordsErr>
    ensures { Gives usage_of (λ kernel. kernel) result
        (spec.kernel_by (first_value (found_of matches.now))) }
{
    let key = number_or(0, 0, u64::MAX, matches.get_str("key"))?;
    let count = number_or(1, 1, MOST_COUNT, matches.get_str("count"))?;
    Ok((key, count))
}

// What is asked for by what is said of each name.
#[tactic(auto, unfolding(crate::specs::Command::options_of))]
fn options_of(alloc: Global, matches: &ArgMatches<'_>) -> Result<Options, WordsErr>
    ensures { Gives usage_of (λ options. options) result
        (spec.options_of (first_value (found_of matches.now))) }
{
    let mode = mode_by(matches)?;
    let arch = architecture(mode, matches.get_str("arch"))?;
    let (input, core, state) = files_by(alloc, mode, matches)?;
    let (start, end) = labels_of(alloc, matches.get_str("start"), matches.get_str("end"))?;
    let (live, free) = registers_by(alloc, arch, matches)?;
    let (most, budget, workers, turns) = numbers_by(matches)?;
    let (key, count) = kernel_by(matches)?;
    Ok(Options {
        mode,
        arch,
        input,
        core,
        start,
        end,
        live,
        free,
        most,
        budget,
        workers,
        state,
        turns,
        key,
        count,
    })
}

/// What the words of a command ask for. The first one is the program's name, and isn't read.
/// `Usage` is the answer exactly where the words are wrong.
#[tactic(auto, unfolding(crate::specs::Command::command_of))]
pub fn read_words(alloc: Global, words: &[String]) -> Result<Options, WordsErr>
    ensures answer { Gives usage_of (λ options. options) result
        (command_of (map string_bytes words.now)) }
    ensures whole { IfOk result IsWhole }
{
    let matches = said_by(alloc, words)?;
    options_of(alloc, &matches)
}
