//! The name of a unit.
ghost use Rattle.std.specs.Prelude.{◌≡◌, ◌≤◌, true, take};
ghost use Rattle.std.specs.Str.{is_utf8};

/// The name of a unit of a core, of at most 16 bytes.
#[derive(Clone, Copy)]
pub struct UnitName {
    bytes: [u8; 16],
    length: u8,
    ghost few: { length ≤ 16 },
    ghost spelled: { is_utf8 (take length bytes) ≡ true },
}

impl UnitName {
    ghost use Rattle.std.specs.Prelude.{length as list_length};
    ghost use Rattle.asm_reader.specs.UnitViews.{unit_text};

    /// The name of these letters, at most 16 bytes.
    pub fn new(text: &str) -> UnitName
        requires { list_length text.now ≤ 16 }
        ensures { unit_text result ≡ text.now }
    {
        let mut bytes = [0; 16];
        bytes[..text.len()].copy_from_slice(text.as_bytes());
        UnitName {
            bytes,
            length: text.len() as u8,
        }
    }

    /// Its letters.
    pub fn text(&self) -> &str
        ensures { result.now ≡ unit_text self.now }
    {
        match str::from_utf8(&self.bytes[..usize::from(self.length)]) {
            Ok(text) => text,
            Err(_) => "",
        }
    }
}
