//! The lines of a text, one after the other.
ghost use Rattle.std.specs.Prelude.{◌+◌, ◌<◌, ◌^◌, length};

use crate::text::{split_line, without_end};

/// A line of a text.
#[derive(Clone, Copy, Debug, PartialEq, Eq)]
pub struct Line<'a> {
    /// The line's number, counted from 1 in a file.
    pub number: u32,
    /// The line without its end.
    pub text: &'a str,
}

/// The lines of a text without their ends, made by [`lines`](crate::lines).
#[derive(Clone, Copy, Debug)]
pub struct Lines<'a> {
    pub(crate) number: u32,
    pub(crate) rest: &'a str,
    ghost numbers_fit: { number + length rest.now < 2 ^ 32 },
}

impl<'a> Iterator for Lines<'a> {
    ghost use Rattle.std.specs.Iterator.{YieldsFirstBy, item_count};
    ghost use Rattle.sl_text.specs.Lines.{line_value, lines_left};

    type Item = Line<'a>;

    ghost next_gives = { YieldsFirstBy line_value lines_left };

    ghost remaining = { item_count lines_left };

    fn next(&mut self) -> Option<Line<'a>> {
        let (line, rest) = split_line(self.rest)?;
        let number = self.number;
        self.rest = rest;
        self.number = number + 1;
        Some(Line {
            number,
            text: without_end(line),
        })
    }
}
