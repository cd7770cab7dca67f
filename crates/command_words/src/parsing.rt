//! What the words of a command say, found by clap.
ghost use Rattle.std.specs.Prelude.{◌≡◌, IfOk, map, string_bytes};
ghost use Rattle.std.specs.List.{fold};
ghost use Rattle.clap.specs.Words.{app_of, kind_of, found_of, first_value};
ghost use Rattle.sl_model.specs.Answers.{Gives};
ghost use Rattle.command_words.specs.Answer.{usage_of};
ghost use Rattle.command_words.specs.App.{app, bare, with_place, with_option};
ghost use Rattle.command_words.specs.Saying.{said_by};
ghost use Rattle.command_words.specs.TableViews.{line_value};

use crate::WordsErr;
use crate::table::{OptionLine, option_lines};
use clap::error::ErrorKind;
use clap::{Arg, ArgMatches, Command, Error};
use std::alloc::{AllocError, Global};

// A command with no arguments and no `--help`.
fn bare_command<'a>(alloc: Global) -> Command<'a>
    ensures { app_of result ≡ bare }
{
    Command::new(alloc, "slothy").disable_help_flag(true)
}

// One more positional word.
fn with_place<'a>(
    alloc: Global,
    command: Command<'a>,
    name: &'a str,
) -> Result<Command<'a>, AllocError>
    ensures { IfOk result
        (λ more. app_of more ≡ with_place (app_of command.entry) name.entry.now) }
{
    let place = Arg::new(alloc, name);
    command.arg(place)
}

// One more option of one value.
fn with_option<'a>(
    alloc: Global,
    command: Command<'a>,
    name: &'a str,
) -> Result<Command<'a>, AllocError>
    ensures { IfOk result
        (λ more. app_of more ≡ with_option (app_of command.entry) name.entry.now) }
{
    let option = Arg::new(alloc, name).long(name);
    command.arg(option)
}

// More options.
fn with_options<'a>(
    alloc: Global,
    command: Command<'a>,
    lines: &[OptionLine],
) -> Result<Command<'a>, AllocError>
    ensures { IfOk result (λ more. app_of more
        ≡ fold with_option (app_of command.entry) (map (λ line. (line_value line).name) lines.now)) }
{
    let mut command = command;
    for line in lines {
        command = with_option(alloc, command, line.name)?;
    }
    Ok(command)
}

// The command that clap parses.
#[tactic(auto, unfolding(crate::specs::App::app, crate::specs::Table::option_names))]
fn whole_command<'a>(alloc: Global) -> Result<Command<'a>, AllocError>
    ensures { IfOk result (λ command. app_of command ≡ app) }
{
    let bare = bare_command(alloc);
    let with_mode = with_place(alloc, bare, "MODE")?;
    let with_input = with_place(alloc, with_mode, "INPUT")?;
    with_options(alloc, with_input, &option_lines())
}

// Why clap refused: memory ran out, or the words are wrong.
fn refusal(error: &Error) -> WordsErr
    ensures { result ≡ WordsErr.Usage → kind_of error.now ≡ ErrorKind.OutOfMemory → ⊥ }
{
    match error.kind() {
        ErrorKind::OutOfMemory => WordsErr::NoMemory,
        _ => WordsErr::Usage,
    }
}

/// What the words of a command say of each name; the first word isn't read.
pub(crate) fn said_by<'a>(alloc: Global, words: &'a [String]) -> Result<ArgMatches<'a>, WordsErr>
    ensures { Gives usage_of (λ matches. first_value (found_of matches)) result
        (said_by (map string_bytes words.now)) }
{
    let command = whole_command(alloc)?;
    match command.try_get_matches_from(words) {
        Ok(matches) => Ok(matches),
        Err(error) => Err(refusal(&error)),
    }
}
