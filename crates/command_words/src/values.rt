//! The values of single options.
ghost use Rattle.std.specs.Prelude.{◌≡◌, ◌≤◌, option_map, IfOk};
ghost use Rattle.sl_model.specs.Answers.{Gives};
ghost use Rattle.command_words.specs.Answer.{usage_of};
ghost use Rattle.command_words.specs.Command as spec;

use crate::{CoreWord, LATENCY, Mode, WordText, WordsErr};
use sl_model::instruction::ArchName;
use sl_text::{Numeral, decimal_value};
use std::alloc::Global;

/// The number that a word spells, from one to another.
#[tactic(auto, unfolding(crate::specs::Command::number_in))]
pub(crate) fn number_in(least: u64, most: u64, word: &str) -> Result<u64, WordsErr>
    ensures value { Gives usage_of (λ n. n) result (spec.number_in least most word.now) }
    ensures most { IfOk result (λ n. n ≤ most) }
{
    let Numeral::Number(number) = decimal_value(u128::from(most), word.as_bytes()) else {
        return Err(WordsErr::Usage);
    };
    if number < u128::from(least) {
        return Err(WordsErr::Usage);
    }
    Ok(number as u64)
}

/// The number that is said, from one to another, or the one that stands for none.
pub(crate) fn number_or(
    least: u64,
    unsaid: u64,
    most: u64,
    word: Option<&str>,
) -> Result<u64, WordsErr>
    requires { unsaid ≤ most }
    ensures value { Gives usage_of (λ n. n) result
        (spec.number_or least unsaid most (option_map (λ text. text.now) word.entry)) }
    ensures most { IfOk result (λ n. n ≤ most) }
{
    let Some(word) = word else {
        return Ok(unsaid);
    };
    number_in(least, most, word)
}

// The name of a file: neither empty nor `-`.
#[tactic(auto, unfolding(crate::specs::Command::file_name))]
fn file_name(alloc: Global, word: &str) -> Result<WordText, WordsErr>
    ensures { Gives usage_of (λ name. name) result (spec.file_name word.now) }
{
    if word.is_empty() {
        return Err(WordsErr::Usage);
    }
    if word == "-" {
        return Err(WordsErr::Usage);
    }
    let name = WordText::new(alloc, word)?;
    Ok(name)
}

// The core of a latency.
fn plain_core(digits: &str) -> Result<CoreWord, WordsErr>
    ensures { Gives usage_of (λ core. core) result (spec.plain_core digits.now) }
{
    let latency = number_in(1, LATENCY, digits)?;
    Ok(CoreWord::Plain { latency })
}

// The core of a file.
fn file_core(alloc: Global, word: &str) -> Result<CoreWord, WordsErr>
    ensures { Gives usage_of (λ core. core) result (spec.file_core word.now) }
{
    let name = file_name(alloc, word)?;
    Ok(CoreWord::File { name })
}

// A core: `one:` and a latency, or the name of a file.
#[tactic(auto, unfolding(crate::specs::Command::core_named))]
fn core_named(alloc: Global, word: &str) -> Result<CoreWord, WordsErr>
    ensures { Gives usage_of (λ core. core) result (spec.core_named word.now) }
{
    if let Some(digits) = word.strip_prefix("one:") {
        return plain_core(digits);
    }
    file_core(alloc, word)
}

/// The core that is said, if one is.
#[tactic(auto, unfolding(crate::specs::Command::core_of))]
pub(crate) fn core_of(alloc: Global, word: Option<&str>) -> Result<Option<CoreWord>, WordsErr>
    ensures { Gives usage_of (λ core. core) result
        (spec.core_of (option_map (λ text. text.now) word.entry)) }
{
    let Some(word) = word else {
        return Ok(None);
    };
    let core = core_named(alloc, word)?;
    Ok(Some(core))
}

/// The state file that is said, if one is.
#[tactic(auto, unfolding(crate::specs::Command::state_of))]
pub(crate) fn state_of(alloc: Global, word: Option<&str>) -> Result<Option<WordText>, WordsErr>
    ensures { Gives usage_of (λ state. state) result
        (spec.state_of (option_map (λ text. text.now) word.entry)) }
{
    let Some(word) = word else {
        return Ok(None);
    };
    let name = file_name(alloc, word)?;
    Ok(Some(name))
}

// The name of an input: a word that isn't empty.
fn input_named(alloc: Global, word: Option<&str>) -> Result<WordText, WordsErr>
    ensures { Gives usage_of (λ input. input) result
        (spec.input_named (option_map (λ text. text.now) word.entry)) }
{
    let Some(word) = word else {
        return Err(WordsErr::Usage);
    };
    if word.is_empty() {
        return Err(WordsErr::Usage);
    }
    let input = WordText::new(alloc, word)?;
    Ok(input)
}

// No input, for which the kernel of `demo` stands.
fn no_input(alloc: Global, word: Option<&str>) -> Result<WordText, WordsErr>
    ensures { Gives usage_of (λ input. input) result
        (spec.no_input (option_map (λ text. text.now) word.entry)) }
{
    if word.is_some() {
        return Err(WordsErr::Usage);
    }
    let input = WordText::new(alloc, "demo")?;
    Ok(input)
}

/// The input: a word that isn't empty; `demo` takes none.
#[tactic(auto, unfolding(crate::specs::Command::input_of))]
pub(crate) fn input_of(alloc: Global, mode: Mode, word: Option<&str>) -> Result<WordText, WordsErr>
    ensures { Gives usage_of (λ input. input) result
        (spec.input_of mode (option_map (λ text. text.now) word.entry)) }
{
    match mode {
        Mode::Cost => input_named(alloc, word),
        Mode::Opt => input_named(alloc, word),
        Mode::Run => input_named(alloc, word),
        Mode::Demo => no_input(alloc, word),
    }
}

/// The mode.
#[tactic(auto, unfolding(crate::specs::Command::mode_of))]
pub(crate) fn mode_of(word: Option<&str>) -> Result<Mode, WordsErr>
    ensures { Gives usage_of (λ mode. mode) result
        (spec.mode_of (option_map (λ text. text.now) word.entry)) }
{
    let Some(word) = word else {
        return Err(WordsErr::Usage);
    };
    match word {
        "cost" => Ok(Mode::Cost),
        "opt" => Ok(Mode::Opt),
        "run" => Ok(Mode::Run),
        "demo" => Ok(Mode::Demo),
        _ => Err(WordsErr::Usage),
    }
}

// The architecture of a name.
fn architecture_named(word: &str) -> Result<ArchName, WordsErr>
    ensures { Gives usage_of (λ arch. arch) result (spec.architecture_named word.now) }
{
    match word {
        "arm64" => Ok(ArchName::Arm64),
        "m4" => Ok(ArchName::M4),
        _ => Err(WordsErr::Usage),
    }
}

// An architecture of which a mode has regions.
fn architecture_for(mode: Mode, arch: ArchName) -> Result<ArchName, WordsErr>
    ensures { Gives usage_of (λ arch. arch) result (spec.architecture_for mode arch) }
{
    match (mode, arch) {
        (Mode::Demo, ArchName::M4) => Err(WordsErr::Usage),
        _ => Ok(arch),
    }
}

/// The architecture: `arm64` where nothing is said, and the only one of `demo`.
#[tactic(auto, unfolding(crate::specs::Command::architecture))]
pub(crate) fn architecture(mode: Mode, word: Option<&str>) -> Result<ArchName, WordsErr>
    ensures { Gives usage_of (λ arch. arch) result
        (spec.architecture mode (option_map (λ text. text.now) word.entry)) }
{
    let Some(word) = word else {
        return Ok(ArchName::Arm64);
    };
    let arch = architecture_named(word)?;
    architecture_for(mode, arch)
}
