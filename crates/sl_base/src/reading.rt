//! Reading a whole file.
ghost use Rattle.std.specs.Prelude.{◌≡◌, ℕ, ◌<◌, ◌≤◌, true, false, List, length, Some, IfOk, OnOk, IsErr, vec_len};
ghost use Rattle.sl_base.specs.Faults.{HasRisen};
ghost use Rattle.sl_base.specs.Reading.{OnReadFault, UnlessReadFault, IfTooLong};

use crate::files::{ChooseErr, Files};
use std::alloc::Global;
use thiserror::Error;

/// How many bytes are asked for at a time.
const PIECE: usize = 4096;

/// Why a file couldn't be read whole.
#[derive(Clone, Copy, Debug, PartialEq, Eq, Drop, Error)]
pub enum ReadErr {
    /// The file isn't there, or a read of it failed.
    #[error("the file can't be read")]
    ReadFault,
    /// The file has more bytes than `limit`.
    #[error("the file has more than {limit} bytes")]
    TooLong { limit: u64 },
    /// Memory ran out.
    #[error("out of memory")]
    NoMemory,
}

/// The bytes of the file `name`, which are at most `limit`. It reads on until a read gives nothing.
/// No fault of the files is passed over.
pub fn read_all<F: Files>(
    alloc: Global,
    files: &mut F,
    name: &str,
    limit: u64,
) -> Result<Vec<u8>, ReadErr>
    ensures same_files { F.holds files.new ≡ F.holds files.old }
    ensures never_falls { F.faults files.old ≤ F.faults files.new }
    ensures ok_bound { IfOk result (λ v. vec_len v ≤ limit) }
    ensures ok_told { (bytes : List ℕ) → F.holds files.old name.now ≡ Some bytes
        → IfOk result (λ v. v.items ≡ bytes) }
    ensures ok_chosen { OnOk result (F.chosen files.new ≡ name.now) }
    ensures ok_broken { OnOk result (F.broken files.new ≡ false) }
    ensures ok_given { IfOk result (λ v. F.given files.new ≡ vec_len v) }
    ensures ok_faults { OnOk result (F.faults files.new ≡ F.faults files.old) }
    ensures other_faults { UnlessReadFault result (F.faults files.new ≡ F.faults files.old) }
    ensures fault_risen { OnReadFault result (HasRisen (F.faults files.old) (F.faults files.new)) }
    ensures fault_chosen { OnReadFault result (F.chosen files.new ≡ name.now) }
    ensures fault_broken { OnReadFault result (F.broken files.new ≡ true) }
    ensures long_limit { IfTooLong result (λ n. n ≡ limit) }
    ensures long_given { IfTooLong result (λ _. limit < F.given files.new) }
    ensures long_chosen { IfTooLong result (λ _. F.chosen files.new ≡ name.now) }
    ensures long_told { (bytes : List ℕ) → F.holds files.old name.now ≡ Some bytes
        → IfTooLong result (λ _. limit < length bytes) }
    ensures long_not_ok { (bytes : List ℕ) → F.holds files.old name.now ≡ Some bytes
        → limit < length bytes → IsErr result }
{
    match files.choose(name) {
        Ok(()) => read_rest(alloc, files, limit),
        Err(ChooseErr::Failed) => Err(ReadErr::ReadFault),
        Err(ChooseErr::NoMemory) => Err(ReadErr::NoMemory),
    }
}

/// The bytes that the chosen file still gives, where none was given
/// yet and they are at most `limit`.
fn read_rest<F: Files>(alloc: Global, files: &mut F, limit: u64) -> Result<Vec<u8>, ReadErr>
    requires { F.given files.old ≡ 0 }
    ensures same_files { F.holds files.new ≡ F.holds files.old }
    ensures same_chosen { F.chosen files.new ≡ F.chosen files.old }
    ensures never_falls { F.faults files.old ≤ F.faults files.new }
    ensures ok_bound { IfOk result (λ v. vec_len v ≤ limit) }
    ensures ok_told { (bytes : List ℕ) → F.left files.old ≡ Some bytes
        → IfOk result (λ v. v.items ≡ bytes) }
    ensures ok_broken { OnOk result (F.broken files.new ≡ F.broken files.old) }
    ensures ok_given { IfOk result (λ v. F.given files.new ≡ vec_len v) }
    ensures ok_faults { OnOk result (F.faults files.new ≡ F.faults files.old) }
    ensures other_faults { UnlessReadFault result (F.faults files.new ≡ F.faults files.old) }
    ensures fault_risen { OnReadFault result (HasRisen (F.faults files.old) (F.faults files.new)) }
    ensures fault_broken { OnReadFault result (F.broken files.new ≡ true) }
    ensures long_limit { IfTooLong result (λ n. n ≡ limit) }
    ensures long_given { IfTooLong result (λ _. limit < F.given files.new) }
    ensures long_told { (bytes : List ℕ) → F.left files.old ≡ Some bytes
        → IfTooLong result (λ _. limit < length bytes) }
    ensures long_not_ok { (bytes : List ℕ) → F.left files.old ≡ Some bytes → limit < length bytes
        → IsErr result }
{
    let mut text = Vec::new(alloc);
    let mut buffer = [0; PIECE];
    loop {
        let Ok(count) = files.read(&mut buffer) else {
            return Err(ReadErr::ReadFault);
        };
        if count == 0 {
            return Ok(text);
        }
        if limit - (text.len() as u64) < count as u64 {
            return Err(ReadErr::TooLong { limit });
        }
        if text.extend_from_slice(&buffer[..count]).is_err() {
            return Err(ReadErr::NoMemory);
        }
    }
}
