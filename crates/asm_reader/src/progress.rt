//! A draft with the names of symbolic registers.

use crate::draft::Draft;
use sl_isa::Symbols;

/// A region as far as it was read.
#[derive(Drop)]
pub(crate) struct Progress<'a> {
    /// The instructions, and what notes say.
    pub draft: Draft<'a>,
    /// The names of the symbolic registers.
    pub symbols: Symbols,
}
