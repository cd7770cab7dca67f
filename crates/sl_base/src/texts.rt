//! Texts that are written piece by piece, as bytes.
ghost use Rattle.std.specs.Prelude.{◌≡◌, ◌++◌, OnOk, OnErr, MatchResult};
ghost use Rattle.std.specs.Fmt.{decimal};

use crate::files::NoMemory;
use itoa::Buffer;

/// Adds a text. After `NoMemory` nothing has changed.
pub fn append(out: &mut Vec<u8>, text: &[u8]) -> Result<(), NoMemory>
    ensures ok { OnOk result (out.new.items ≡ out.old.items ++ text.now) }
    ensures err { OnErr result (out.new.items ≡ out.old.items) }
{
    if out.extend_from_slice(text).is_err() {
        return Err(NoMemory);
    }
    Ok(())
}

/// Adds a label and a number, in decimal digits. After `NoMemory` nothing has changed.
pub fn append_labelled(out: &mut Vec<u8>, label: &[u8], number: u64) -> Result<(), NoMemory>
    ensures { MatchResult result
        (λ _. out.new.items ≡ out.old.items ++ (label.now ++ decimal number))
        (λ _. out.new.items ≡ out.old.items) }
{
    let before = out.len();
    append(out, label)?;
    if append(out, Buffer::new().format(number).as_bytes()).is_err() {
        out.truncate(before);
        return Err(NoMemory);
    }
    Ok(())
}
