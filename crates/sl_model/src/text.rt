//! What a cut answers, and the kinds of tokens and comments.

/// Why a text has no region.
#[derive(Clone, Copy, Debug, PartialEq, Eq)]
pub enum CutRefusal {
    /// There is no start marker.
    NoStart,
    /// No end marker stands below the start marker.
    NoEnd,
    /// A marker stands a second time, at this line, counted from 1.
    Twice { line: u32 },
}

/// What a token of a line is.
#[derive(Clone, Copy, Debug, PartialEq, Eq)]
pub enum TokenKind {
    /// A longest run of letters, digits and `_` that starts with a letter or `_`.
    Word,
    /// A longest run of letters and digits that starts with a digit.
    Number,
    /// A single character of any other kind that is no blank.
    Mark,
    /// A comment, or what stands of it on the line.
    Comment,
}

/// Which characters start a comment to the line's end; where there are
/// comments, `/*` starts one that runs to `*/`.
#[derive(Clone, Copy, Debug, PartialEq, Eq)]
pub enum Comments {
    /// `//` alone.
    Slash,
    /// `//` and `@`.
    SlashAt,
    /// Nothing starts one: comments were taken off.
    Taken,
}
