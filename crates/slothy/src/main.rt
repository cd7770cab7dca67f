//! The program `slothy`: the command on the system's files and streams.
#![tactic(auto)]

ghost use Rattle.std.specs.Prelude.{◌≡◌, ◌≤◌, ◌↔◌, ◌⊎◌, map, IfOk, IfErr, OnErr, string_bytes};
ghost use Rattle.std.specs.IoError.{error_kind};
ghost use Rattle.std.specs.Process.{exit_status};
ghost use Rattle.slothy_cli.specs.declared.status.Status.{Status as TheStatus};
ghost use Rattle.slothy_cli.specs.Messages.{code_of};
ghost use Rattle.slothy_cli.specs.Ending.{files_run, sink_run};
ghost use Rattle.slothy.specs.Ran.{Ran};

use sl_base::{Disk, Files, HostErr, HostFiles, HostOut, Messages, NoGate, Output, WithInput};
use slothy_cli::{Status, run};
use std::alloc::{AllocError, Global};
use std::io::ErrorKind;
use std::process::ExitCode;
use std::rt::Env;
use std::thread::Threads;
use std::{env, io};

/// The words of the command, the program's name first.
fn words(rt: &(impl Env + AllocGlobal)) -> io::Result<Vec<String>> {
    Ok(env::args(rt)?.collect(rt.alloc())?)
}

/// The status where the words can't be had: they aren't UTF-8, or there is no memory for them.
fn wordless(error: &io::Error) -> Status
    ensures memory { (result ≡ Status.NoMemory) ↔ (error_kind error.now ≡ ErrorKind.OutOfMemory) }
    ensures other { (result ≡ Status.NoMemory) ⊎ (result ≡ Status.Usage) }
{
    match error.kind() {
        ErrorKind::OutOfMemory => Status::NoMemory,
        _ => Status::Usage,
    }
}

/// Runs the command that the words ask for. Its text goes to `out` and its message to `err`,
/// and its status is the program's.
fn command<R: Threads + Sync, F: Files, O: Output, E: Messages>(
    rt: &R,
    alloc: Global,
    words: io::Result<Vec<String>>,
    files: &mut F,
    out: &mut O,
    err: &mut E,
) -> ExitCode
    ensures ran { IfOk words (λ w. (status : TheStatus) × (exit_status result ≡ code_of status)
        × Ran (map string_bytes w.items) (F.holds files.old)
        (files_run F.faults F.given F.chosen F.broken files.old files.new)
        (sink_run O.taken O.faults out.old out.new)
        (sink_run E.taken E.faults err.old err.new) status) }

    // Without words nothing is read or written.
    ensures wordless { IfErr words
        (λ e. (status : TheStatus) × (exit_status result ≡ code_of status)
        × ((status ≡ Status.NoMemory) ↔ (error_kind e ≡ ErrorKind.OutOfMemory))
        × ((status ≡ Status.NoMemory) ⊎ (status ≡ Status.Usage))) }
    ensures silent { OnErr words
        ((files.new ≡ files.old) × (out.new ≡ out.old) × (err.new ≡ err.old)) }
    ensures same_files { F.holds files.new ≡ F.holds files.old }
    ensures files_never_fall { F.faults files.old ≤ F.faults files.new }
    ensures out_never_falls { O.faults out.old ≤ O.faults out.new }
    ensures err_never_falls { E.faults err.old ≤ E.faults err.new }
{
    let words = match words {
        Ok(words) => words,
        Err(error) => return ExitCode::from(wordless(&error).code()),
    };
    let status = run(rt, alloc, &words, files, out, err, &NoGate);
    ExitCode::from(status.code())
}

fn main(rt: HostRuntime) -> ExitCode {
    let system = WithInput {
        files: Disk { rt: &rt },
        input: &rt,
    };
    command(
        &rt,
        rt.alloc(),
        words(&rt),
        &mut HostFiles::new(system, rt.alloc()),
        &mut HostOut::new(rt.stdout()),
        &mut HostErr::new(rt.stderr()),
    )
}
