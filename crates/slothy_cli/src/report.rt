//! The line on standard error.
ghost use Rattle.std.specs.Prelude.{◌≡◌, ◌≤◌, [], ◌∷◌, map, codes};
ghost use Rattle.std.specs.Fmt.{decimal};
ghost use Rattle.sl_model.specs.Text.{joined};
ghost use Rattle.slothy_cli.specs.Messages.{form_text, reason_text, core_reason_text, quantity_text, key_gap, stop_message, message_of};
ghost use Rattle.slothy_cli.specs.NamesShown.{names_of};
ghost use Rattle.slothy_cli.specs.Ending.{sink_run, TookFront};

use crate::files::{Names, name_in};
use crate::status::Ending;
use crate::stop::{File, Quantity, Reason, Stop};
use core_text::CoreReason;
use itoa::Buffer;
use sl_base::{Sink, write_all};
use sl_isa::FormReason;

// Writes texts one behind the other, until the sink fails. It takes no memory.
fn tell<S: Sink>(sink: &mut S, pieces: &[&str])
    ensures never_falls { S.faults sink.old ≤ S.faults sink.new }
    ensures took { TookFront (sink_run S.taken S.faults sink.old sink.new)
        (joined (map (λ piece. piece.now) pieces.now)) }
{
    for piece in pieces {
        if let Err(_) = write_all(sink, piece.as_bytes()) {
            return;
        }
    }
}

// The name of a reason why words are no instruction.
fn form_text(form: FormReason) -> &'static str
    ensures { result.now ≡ form_text form }
{
    match form {
        FormReason::UnknownMnemonic => "UnknownMnemonic",
        FormReason::BadOperand => "BadOperand",
        FormReason::ImmediateRange => "ImmediateRange",
        FormReason::RegisterClass => "RegisterClass",
        FormReason::SameRegister => "SameRegister",
    }
}

// The name of a reason.
fn reason_text(reason: Reason) -> &'static str
    ensures { result.now ≡ reason_text reason }
{
    match reason {
        Reason::NotText => "NotText",
        Reason::NoStart => "NoStart",
        Reason::NoEnd => "NoEnd",
        Reason::Twice => "Twice",
        Reason::NoEndm => "NoEndm",
        Reason::MacroTwice => "MacroTwice",
        Reason::MacroShape => "MacroShape",
        Reason::ArgCount => "ArgCount",
        Reason::ParamUnknown => "ParamUnknown",
        Reason::AliasTwice => "AliasTwice",
        Reason::AliasUnknown => "AliasUnknown",
        Reason::TagBad => "TagBad",
        Reason::SymbolUnset => "SymbolUnset",
        Reason::NotYet => "NotYet",
        Reason::Form(form) => form_text(form),
        Reason::StateBad => "StateBad",
        Reason::ClassMissing => "ClassMissing",
    }
}

// The name of a reason why a core table is refused.
fn core_reason_text(reason: CoreReason) -> &'static str
    ensures { result.now ≡ core_reason_text reason }
{
    match reason {
        CoreReason::NotToml => "NotToml",
        CoreReason::Missing => "Missing",
        CoreReason::KeyUnknown => "KeyUnknown",
        CoreReason::UnitUnknown => "UnitUnknown",
        CoreReason::ClassUnknown => "ClassUnknown",
        CoreReason::NumberRange => "NumberRange",
        CoreReason::NameBad => "NameBad",
        CoreReason::Twice => "Twice",
        CoreReason::ArchOther => "ArchOther",
    }
}

// What stands before a key.
fn key_gap(key: &str) -> &'static str
    ensures { result.now ≡ key_gap key.now }
{
    if key.is_empty() { "" } else { " " }
}

// The name of a quantity.
fn quantity_text(quantity: Quantity) -> &'static str
    ensures { result.now ≡ quantity_text quantity }
{
    match quantity {
        Quantity::File => "file",
        Quantity::Items => "items",
        Quantity::Depth => "depth",
        Quantity::Expansion => "expansion",
        Quantity::Trees => "trees",
    }
}

// Says that a core table is refused, at a key with a gap before it.
fn report_core<'a, S: Sink>(
    sink: &mut S,
    name: &'a str,
    reason: &'a str,
    gap: &'a str,
    key: &'a str,
)
    ensures never_falls { S.faults sink.old ≤ S.faults sink.new }
    ensures took { TookFront (sink_run S.taken S.faults sink.old sink.new)
        (joined (codes "slothy: " ∷ name.now ∷ codes ": refused: " ∷ reason.now ∷ gap.now ∷ key.now
        ∷ codes "\n" ∷ [])) }
{
    tell(
        sink,
        &["slothy: ", name, ": refused: ", reason, gap, key, "\n"],
    );
}

// Says that a line of a file is refused.
fn report_refusal<'a, S: Sink>(sink: &mut S, name: &'a str, line: &'a str, reason: &'a str)
    ensures never_falls { S.faults sink.old ≤ S.faults sink.new }
    ensures took { TookFront (sink_run S.taken S.faults sink.old sink.new)
        (joined (codes "slothy: " ∷ name.now ∷ codes ":" ∷ line.now ∷ codes ": refused: "
        ∷ reason.now ∷ codes "\n" ∷ [])) }
{
    tell(
        sink,
        &["slothy: ", name, ":", line, ": refused: ", reason, "\n"],
    );
}

// Says that a quantity passes its limit at a line of a file.
fn report_limit<'a, S: Sink>(
    sink: &mut S,
    name: &'a str,
    line: &'a str,
    quantity: &'a str,
    limit: &'a str,
)
    ensures never_falls { S.faults sink.old ≤ S.faults sink.new }
    ensures took { TookFront (sink_run S.taken S.faults sink.old sink.new)
        (joined (codes "slothy: " ∷ name.now ∷ codes ":" ∷ line.now ∷ codes ": too large: "
        ∷ quantity.now ∷ codes " limit=" ∷ limit.now ∷ codes "\n" ∷ [])) }
{
    tell(
        sink,
        &[
            "slothy: ",
            name,
            ":",
            line,
            ": too large: ",
            quantity,
            " limit=",
            limit,
            "\n",
        ],
    );
}

// Says that no schedule has so few stalls, in decimal digits.
fn report_infeasible<S: Sink>(sink: &mut S, most: &str)
    ensures never_falls { S.faults sink.old ≤ S.faults sink.new }
    ensures took { TookFront (sink_run S.taken S.faults sink.old sink.new)
        (joined (codes "slothy: infeasible up to " ∷ most.now ∷ codes " stalls\n" ∷ [])) }
{
    tell(sink, &["slothy: infeasible up to ", most, " stalls\n"]);
}

// Says in which tree of which level the budget was spent, in decimal digits.
fn report_budget<'a, S: Sink>(sink: &mut S, level: &'a str, tree: &'a str)
    ensures never_falls { S.faults sink.old ≤ S.faults sink.new }
    ensures took { TookFront (sink_run S.taken S.faults sink.old sink.new)
        (joined (codes "slothy: budget: level=" ∷ level.now ∷ codes " tree=" ∷ tree.now
        ∷ codes "\n" ∷ [])) }
{
    tell(
        sink,
        &["slothy: budget: level=", level, " tree=", tree, "\n"],
    );
}

// Says why a file has no text.
fn report_stop<S: Sink>(sink: &mut S, names: Names<'_>, stop: &Stop)
    ensures never_falls { S.faults sink.old ≤ S.faults sink.new }
    ensures took { TookFront (sink_run S.taken S.faults sink.old sink.new)
        (stop_message (names_of names.entry) stop.now) }
{
    let mut line_digits = Buffer::new();
    let mut limit_digits = Buffer::new();
    match stop {
        Stop::CoreRefused { reason, key } => {
            let name = name_in(names, File::Core);
            let key = key.text();
            report_core(sink, name, core_reason_text(*reason), key_gap(key), key);
        }
        Stop::Refused { file, line, reason } => {
            let name = name_in(names, *file);
            report_refusal(sink, name, line_digits.format(*line), reason_text(*reason));
        }
        Stop::TooLarge {
            file,
            line,
            quantity,
            limit,
        } => {
            let name = name_in(names, *file);
            let line = line_digits.format(*line);
            let limit = limit_digits.format(*limit);
            report_limit(sink, name, line, quantity_text(*quantity), limit);
        }
        Stop::Infeasible { most } => report_infeasible(sink, limit_digits.format(*most)),
        Stop::Budget { level, tree } => {
            report_budget(sink, line_digits.format(*level), limit_digits.format(*tree));
        }
    }
}

// Says which file couldn't be read.
fn report_read_fault<S: Sink>(sink: &mut S, name: &str)
    ensures never_falls { S.faults sink.old ≤ S.faults sink.new }
    ensures took { TookFront (sink_run S.taken S.faults sink.old sink.new)
        (joined (codes "slothy: read fault: " ∷ name.now ∷ codes "\n" ∷ [])) }
{
    tell(sink, &["slothy: read fault: ", name, "\n"]);
}

// Says how many bytes were written, in decimal digits.
fn report_sent<S: Sink>(sink: &mut S, digits: &str)
    ensures never_falls { S.faults sink.old ≤ S.faults sink.new }
    ensures took { TookFront (sink_run S.taken S.faults sink.old sink.new)
        (joined (codes "slothy: write fault after " ∷ digits.now ∷ codes " bytes\n" ∷ [])) }
{
    tell(sink, &["slothy: write fault after ", digits, " bytes\n"]);
}

// Says how many bytes were written.
fn report_write_fault<S: Sink>(sink: &mut S, sent: u64)
    ensures never_falls { S.faults sink.old ≤ S.faults sink.new }
    ensures took { TookFront (sink_run S.taken S.faults sink.old sink.new)
        (joined (codes "slothy: write fault after " ∷ decimal sent ∷ codes " bytes\n" ∷ [])) }
{
    let mut digits = Buffer::new();
    report_sent(sink, digits.format(sent));
}

/// Writes the line of an ending, where the files have these names. It takes no memory, and
/// goes as far as the sink takes it.
#[tactic(auto, unfolding(crate::specs::Messages::message_of))]
pub fn report<S: Sink>(sink: &mut S, names: Names<'_>, ending: &Ending)
    ensures never_falls { S.faults sink.old ≤ S.faults sink.new }
    ensures took { TookFront (sink_run S.taken S.faults sink.old sink.new)
        (message_of (names_of names.entry) ending.now) }
{
    match ending {
        Ending::Done => tell(sink, &[]),
        Ending::Usage => tell(sink, &["slothy: usage: slothy MODE [INPUT] [OPTIONS]\n"]),
        Ending::Stopped(stop) => report_stop(sink, names, stop),
        Ending::ReadFault(file) => report_read_fault(sink, name_in(names, *file)),
        Ending::WriteFault { sent } => report_write_fault(sink, *sent),
        Ending::NoMemory => tell(sink, &["slothy: no memory\n"]),
    }
}
