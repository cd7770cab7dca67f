//! What all workers of a race share.

use crate::forest::Forest;
use crate::rule::Word;

/// A race over the trees of a level: the forest, how many workers there are, the gate that they pass
/// and the word that they share.
#[derive(Drop)]
pub(crate) struct Round<'a, F: Forest, G> {
    pub(crate) forest: &'a F,
    pub(crate) level: u32,
    pub(crate) stride: usize,
    pub(crate) gate: &'a G,
    pub(crate) word: &'a Word<F>,
}
