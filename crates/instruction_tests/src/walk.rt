//! The walk over the lines of tables.
use sample_set::Failing;
use sl_text::lines;
use std::alloc::Global;

/// What a line of a table is held against.
pub trait Tested {
    /// Notes a line, unless it says what is so.
    fn try_line(&self, alloc: Global, line: &str, failing: &mut Failing);
}

/// Notes the lines of a part of a table that fail, and says how many lines there are.
pub fn walk<T: Tested>(tested: &T, alloc: Global, part: &str, failing: &mut Failing) -> usize {
    let mut count: usize = 0;
    if part.len() < 65536 {
        for line in lines(part, 1) {
            tested.try_line(alloc, line.text, failing);
            count = count.saturating_add(1);
        }
    }
    count
}

/// The lines of the parts of a table that fail; and that there are other lines than so many, where this is so.
pub fn walk_all<T: Tested>(tested: &T, alloc: Global, parts: &[&str], wanted: usize) -> Failing {
    let mut failing = Failing::new(alloc);
    let mut count: usize = 0;
    for part in parts {
        count = count.saturating_add(walk(tested, alloc, part, &mut failing));
    }
    failing.check("the number of lines", count == wanted);
    failing
}
