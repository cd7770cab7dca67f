//! The words of a command, and what they ask for.
#![tactic(auto)]

mod labels;
mod options;
mod parsing;
mod reading;
mod registers;
mod table;
mod values;
mod word_text;

pub use options::{
    BUDGET_UNSAID, CoreWord, LATENCY, MOST_BUDGET, MOST_COUNT, MOST_STALLS, MOST_WORKERS, Mode,
    Options, TURNS_UNSAID, WordsErr,
};
pub use reading::read_words;
pub use sl_base::NoMemory;
pub use word_text::WordText;
