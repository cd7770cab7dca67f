//! The files of a command: their names, and their reads.
ghost use Rattle.std.specs.Prelude.{◌≡◌, ◌≤◌, length, IfOk, IfErr};
ghost use Rattle.slothy_cli.specs.Messages.{name_in};
ghost use Rattle.slothy_cli.specs.NamesShown.{names_of};
ghost use Rattle.slothy_cli.specs.Shown.{unread_ending};
ghost use Rattle.slothy_cli.specs.Ending.{files_run, AreOf, HasFailed};
ghost use Rattle.sl_model.specs.declared.limits.TheConstants.{FILE_BYTES};

use crate::status::Ending;
use crate::stop::{File, Quantity, Stop};
use sl_base::{Files, ReadErr, read_all};
use sl_model::limits::FILE_BYTES;
use std::alloc::Global;

/// The names of a command's files; empty where there is no such file.
#[derive(Clone, Copy, Debug)]
pub struct Names<'a> {
    pub core: &'a str,
    pub input: &'a str,
    pub state: &'a str,
}

/// The name of a file.
pub fn name_in<'a>(names: Names<'a>, file: File) -> &'a str
    ensures { result.now ≡ name_in (names_of names.entry) file }
{
    match file {
        File::Core => names.core,
        File::Input => names.input,
        File::State => names.state,
    }
}

// How a read that failed ends the call.
fn unread(file: File, error: ReadErr) -> Ending
    ensures { result ≡ unread_ending file error }
{
    match error {
        ReadErr::ReadFault => Ending::ReadFault(file),
        ReadErr::TooLong { .. } => Ending::Stopped(Stop::TooLarge {
            file,
            line: 0,
            quantity: Quantity::File,
            limit: FILE_BYTES,
        }),
        ReadErr::NoMemory => Ending::NoMemory,
    }
}

/// The bytes of a file, of which there are at most 1048576.
pub fn read_file<F: Files>(
    alloc: Global,
    names: Names<'_>,
    file: File,
    files: &mut F,
) -> Result<Vec<u8>, Ending>
    ensures same_files { F.holds files.new ≡ F.holds files.old }
    ensures never_falls { F.faults files.old ≤ F.faults files.new }
    ensures short { IfOk result (λ bytes. length bytes.items ≤ FILE_BYTES) }
    ensures of_file { IfOk result
        (λ bytes. AreOf (F.holds files.old (name_in (names_of names.entry) file)) bytes.items) }
    ensures failed { IfErr result
        (λ ending. HasFailed (record {
          names = names_of names.entry;
          holds = F.holds files.old;
          run = files_run F.faults F.given F.chosen F.broken files.old files.new;
        }) file ending) }
{
    match read_all(alloc, files, name_in(names, file), FILE_BYTES) {
        Ok(bytes) => Ok(bytes),
        Err(error) => Err(unread(file, error)),
    }
}
