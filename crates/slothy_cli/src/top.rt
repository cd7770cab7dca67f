//! The command as a whole.
ghost use Rattle.std.specs.Prelude.{◌≡◌, ◌≤◌, ◌⊎◌, ℕ, List, map, Result, Some, None, string_bytes};
ghost use Rattle.slothy_cli.specs.declared.status.Ending.{Ending as TheEnding};
ghost use Rattle.slothy_cli.specs.declared.stop.File.{File as TheFile};
ghost use Rattle.slothy_cli.specs.declared.stop.Stop.{Stop as TheStop};
ghost use Rattle.slothy_cli.specs.Command.{Command as Words, HasCore, command_of};
ghost use Rattle.slothy_cli.specs.Languages.{language_of};
ghost use Rattle.slothy_cli.specs.Shown.{shown, shown_task};
ghost use Rattle.slothy_cli.specs.Outcome.{command_reads, CommandAnswers};
ghost use Rattle.slothy_cli.specs.Messages.{status_of, message_of};
ghost use Rattle.slothy_cli.specs.Ending.{AreTold, names_of_command, names_given, seen_of, files_run, sink_run, TookFront, Ends, Call, IsStatusOf, Delivers};

use crate::command::{Command, command_in};
use crate::files::Names;
use crate::report::report;
use crate::status::{Ending, Status};
use crate::work::text_of_files;
use arm64_table::Arm64;
use command_words::{WordsErr, read_words};
use m4_table::M4;
use sl_base::{Files, Gate, Sink, write_all};
use sl_isa::{Arch, ArchName};
use std::alloc::Global;
use std::thread::Threads;

// Writes a whole text.
fn deliver<O: Sink>(out: &mut O, text: &[u8]) -> Ending
    ensures never_falls { O.faults out.old ≤ O.faults out.new }
    ensures delivers { Delivers (sink_run O.taken O.faults out.old out.new) text.now result }
{
    match write_all(out, text) {
        Ok(()) => Ending::Done,
        Err(error) => Ending::WriteFault { sent: error.sent },
    }
}

// Carries a command out for an architecture.
fn carry_out_for<A: Arch, R: Threads + Sync, F: Files, O: Sink, G: Gate + Sync>(
    arch: &A,
    rt: &R,
    alloc: Global,
    command: &Command<'_>,
    files: &mut F,
    out: &mut O,
    gate: &G,
) -> Ending
    requires core { HasCore (shown_task command.now.task) }
    ensures same_files { F.holds files.new ≡ F.holds files.old }
    ensures files_never_fall { F.faults files.old ≤ F.faults files.new }
    ensures out_never_falls { O.faults out.old ≤ O.faults out.new }
    ensures ends { Ends A.language (shown command.now)
        (seen_of (shown command.now) (F.holds files.old)
        (files_run F.faults F.given F.chosen F.broken files.old files.new))
        (sink_run O.taken O.faults out.old out.new) result }
{
    match text_of_files(arch, rt, alloc, command, files, gate) {
        Ok(text) => deliver(out, &text),
        Err(ending) => ending,
    }
}

// Carries a command out.
fn carry_out<R: Threads + Sync, F: Files, O: Sink, G: Gate + Sync>(
    rt: &R,
    alloc: Global,
    command: &Command<'_>,
    files: &mut F,
    out: &mut O,
    gate: &G,
) -> Ending
    requires core { HasCore (shown_task command.now.task) }
    ensures same_files { F.holds files.new ≡ F.holds files.old }
    ensures files_never_fall { F.faults files.old ≤ F.faults files.new }
    ensures out_never_falls { O.faults out.old ≤ O.faults out.new }
    ensures ends { Ends (language_of command.now.arch) (shown command.now)
        (seen_of (shown command.now) (F.holds files.old)
        (files_run F.faults F.given F.chosen F.broken files.old files.new))
        (sink_run O.taken O.faults out.old out.new) result }
{
    match command.arch {
        ArchName::Arm64 => carry_out_for(&Arm64, rt, alloc, command, files, out, gate),
        ArchName::M4 => carry_out_for(&M4, rt, alloc, command, files, out, gate),
    }
}

// Says on `err` why the words aren't carried out.
fn refuse<E: Sink>(err: &mut E, ending: Ending) -> Ending
    ensures ending { result ≡ ending }
    ensures err_never_falls { E.faults err.old ≤ E.faults err.new }
    ensures message { TookFront (sink_run E.taken E.faults err.old err.new)
        (message_of (names_given None) ending) }
{
    let names = Names {
        core: "",
        input: "",
        state: "",
    };
    report(err, names, &ending);
    ending
}

// Carries out what words ask for, and says on `err` what went wrong.
fn call<R: Threads + Sync, F: Files, O: Sink, E: Sink, G: Gate + Sync>(
    rt: &R,
    alloc: Global,
    words: &[String],
    files: &mut F,
    out: &mut O,
    err: &mut E,
    gate: &G,
) -> Ending
    ensures same_files { F.holds files.new ≡ F.holds files.old }
    ensures files_never_fall { F.faults files.old ≤ F.faults files.new }
    ensures out_never_falls { O.faults out.old ≤ O.faults out.new }
    ensures err_never_falls { E.faults err.old ≤ E.faults err.new }
    ensures call { Call (map string_bytes words.now) (F.holds files.old)
        (files_run F.faults F.given F.chosen F.broken files.old files.new)
        (sink_run O.taken O.faults out.old out.new)
        (sink_run E.taken E.faults err.old err.new) result }
{
    let options = match read_words(alloc, words) {
        Ok(options) => options,
        Err(WordsErr::Usage) => return refuse(err, Ending::Usage),
        Err(WordsErr::NoMemory) => return refuse(err, Ending::NoMemory),
    };
    let Some(command) = command_in(&options) else {
        return refuse(err, Ending::Usage);
    };
    let ending = carry_out(rt, alloc, &command, files, out, gate);
    report(err, command.names(), &ending);
    ending
}

/// Runs the command that `words` ask for, of which the first is the program's name: reads its files
/// from `files`, writes the text to `out`, and where there is none says why on `err`.
///
/// `gate` is told of each tree that a search takes. No thread is started yet.
pub fn run<R: Threads + Sync, F: Files, O: Sink, E: Sink, G: Gate + Sync>(
    rt: &R,
    alloc: Global,
    words: &[String],
    files: &mut F,
    out: &mut O,
    err: &mut E,
    gate: &G,
) -> Status
    // The call ended in one way, with its cause, and says what the sinks took.
    ensures call { (ending : TheEnding) × (result ≡ status_of ending)
        × Call (map string_bytes words.now) (F.holds files.old)
        (files_run F.faults F.given F.chosen F.broken files.old files.new)
        (sink_run O.taken O.faults out.old out.new)
        (sink_run E.taken E.faults err.old err.new) ending }

    // Wrong use is answered only where the words are wrong, and there always, want of memory aside.
    ensures usage { result ≡ Status.Usage → command_of (map string_bytes words.now) ≡ None }
    ensures wrong { command_of (map string_bytes words.now) ≡ None
        → (result ≡ Status.Usage) ⊎ (result ≡ Status.NoMemory) }

    // Of files whose bytes are known the status is that of their outcome,
    // faults and want of memory aside.
    ensures exact { (c : Words) (bytes : TheFile → List ℕ) (answer : Result (List ℕ) TheStop)
        → command_of (map string_bytes words.now) ≡ Some c
        → AreTold (names_of_command c) (F.holds files.old) bytes (command_reads (language_of c.arch) c)
        → CommandAnswers (language_of c.arch) c bytes answer → IsStatusOf answer result }

    // What stays, and counts of faults never fall.
    ensures same_files { F.holds files.new ≡ F.holds files.old }
    ensures files_never_fall { F.faults files.old ≤ F.faults files.new }
    ensures out_never_falls { O.faults out.old ≤ O.faults out.new }
    ensures err_never_falls { E.faults err.old ≤ E.faults err.new }
{
    call(rt, alloc, words, files, out, err, gate).status()
}
