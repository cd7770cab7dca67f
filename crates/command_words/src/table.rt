//! The options, and which mode takes them.
ghost use Rattle.std.specs.Prelude.{◌≡◌, map};
ghost use Rattle.command_words.specs.Table as spec;
ghost use Rattle.command_words.specs.Table.{option_lines, use_by, keeps};
ghost use Rattle.command_words.specs.TableViews.{line_value};

use crate::Mode;

/// What a mode makes of an option.
#[derive(Clone, Copy)]
pub(crate) enum Use {
    /// The mode refuses it.
    Refused,
    /// The mode takes it.
    Taken,
    /// The mode needs it.
    Required,
}

/// An option, and what each mode makes of it.
#[derive(Clone, Copy)]
pub(crate) struct OptionLine {
    pub name: &'static str,
    pub cost: Use,
    pub opt: Use,
    pub run: Use,
    pub demo: Use,
}

// An option with its uses by `cost`, `opt`, `run` and `demo`.
fn line(name: &'static str, cost: Use, opt: Use, run: Use, demo: Use) -> OptionLine
    ensures { line_value result ≡ spec.line name.now cost opt run demo }
{
    OptionLine {
        name,
        cost,
        opt,
        run,
        demo,
    }
}

/// All options, with their uses by `cost`, `opt`, `run` and `demo`.
#[tactic(auto, unfolding(crate::specs::Table::option_lines))]
pub(crate) fn option_lines() -> [OptionLine; 13]
    ensures { map line_value result ≡ option_lines }
{
    [
        line("arch", Use::Taken, Use::Taken, Use::Taken, Use::Taken),
        line(
            "core",
            Use::Required,
            Use::Required,
            Use::Refused,
            Use::Required,
        ),
        line("start", Use::Taken, Use::Taken, Use::Taken, Use::Refused),
        line("end", Use::Taken, Use::Taken, Use::Taken, Use::Refused),
        line("live", Use::Refused, Use::Taken, Use::Refused, Use::Refused),
        line("free", Use::Refused, Use::Taken, Use::Refused, Use::Refused),
        line(
            "max-stalls",
            Use::Refused,
            Use::Taken,
            Use::Refused,
            Use::Taken,
        ),
        line("budget", Use::Refused, Use::Taken, Use::Refused, Use::Taken),
        line(
            "workers",
            Use::Refused,
            Use::Taken,
            Use::Refused,
            Use::Taken,
        ),
        line(
            "state",
            Use::Refused,
            Use::Refused,
            Use::Required,
            Use::Refused,
        ),
        line(
            "turns",
            Use::Refused,
            Use::Refused,
            Use::Taken,
            Use::Refused,
        ),
        line(
            "key",
            Use::Refused,
            Use::Refused,
            Use::Refused,
            Use::Required,
        ),
        line(
            "count",
            Use::Refused,
            Use::Refused,
            Use::Refused,
            Use::Required,
        ),
    ]
}

/// What a mode makes of an option.
pub(crate) fn use_by(mode: Mode, line: &OptionLine) -> Use
    ensures { result ≡ use_by mode (line_value line.now) }
{
    match mode {
        Mode::Cost => line.cost,
        Mode::Opt => line.opt,
        Mode::Run => line.run,
        Mode::Demo => line.demo,
    }
}

/// Whether a use is kept where an option is said, or isn't.
pub(crate) fn keeps(usage: Use, said: bool) -> bool
    ensures { result ≡ keeps usage said }
{
    match usage {
        Use::Refused => !said,
        Use::Taken => true,
        Use::Required => said,
    }
}
