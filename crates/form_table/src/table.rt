//! A table of rows.
ghost use Rattle.std.specs.Prelude.{◌≡◌, MatchOption, None, Some, slice_get};
ghost use Rattle.form_table.specs.TableRows.{rows_of};

use crate::rows::Row;

/// A table: its rows stand in four parts, one behind the other, since a
/// constant can't hold many of them.
#[derive(Clone, Copy)]
pub struct Table<'t> {
    pub first: &'t [Row],
    pub second: &'t [Row],
    pub third: &'t [Row],
    pub fourth: &'t [Row],
}

impl<'t> Table<'t> {
    /// The row of a form.
    pub fn row(&self, form: u16) -> Option<&'t Row>
        ensures { MatchOption result (slice_get (rows_of self.now) form ≡ None)
            (λ row. slice_get (rows_of self.now) form ≡ Some row.now) }
    {
        let place = usize::from(form);
        let first = self.first;
        if place < first.len() {
            return Some(&first[place]);
        }
        let place = place - first.len();
        let second = self.second;
        if place < second.len() {
            return Some(&second[place]);
        }
        let place = place - second.len();
        let third = self.third;
        if place < third.len() {
            return Some(&third[place]);
        }
        let place = place - third.len();
        let fourth = self.fourth;
        if place < fourth.len() {
            return Some(&fourth[place]);
        }
        None
    }
}
