//! The lines of a text, its cut at two marker lines and the tokens of a line. Nothing here takes
//! memory.
#![tactic(auto)]

pub mod cut;
pub mod digits;
pub mod line;
mod marker;
mod scan;
pub mod text;
pub mod token;
pub mod words;

pub use cut::{Cut, cut_region};
pub use digits::{Numeral, decimal_value, digit_of, digits_value, number_value};
pub use line::{Line, Lines};
pub use scan::tokens;
pub use sl_model::text::{Comments, CutRefusal, TokenKind};
pub use text::{NotText, holds, lines, split_line, text_of, without_end};
pub use token::{Token, Tokens};
pub use words::{are_word_bytes, is_unit_name, is_word_byte};
