// Charts that are new, and the row and the table of a chart.
ghost use Rattle.std.specs.Prelude.{◌≡◌, ◌<◌, ◌≤◌, max, false, length, is_ok, is_some, nat_lt, slice_set, IfSome, MatchOption};
ghost use Rattle.chart.specs.Charts.{sheet};
ghost use Rattle.chart.specs.Layout.{structure_of};
ghost use Rattle.sheet.specs.Laws.{Sound};
ghost use Rattle.sheet.specs.Sheet.{at, nothing};
ghost use Rattle.sheet.specs.Edits as edit;

use crate::chart::{Chart, STRUCTURES};
use crate::row::Row;
use hierarchy::Refusal;

impl Chart {
    // A chart that was never begun: one structure.
    pub fn new() -> Chart
        ensures { sheet result ≡ edit.begun 1 }
    {
        Chart::fresh(1)
    }

    // Makes the chart new, with so many structures, each with its entry only.
    pub fn begin(&mut self, structures: usize) -> Result<(), Refusal>
        ensures answer { result ≡ (edit.begin (sheet self.old) structures).answer }
        ensures after { sheet self.new ≡ (edit.begin (sheet self.old) structures).sheet }
        ensures unchanged { is_ok result ≡ false → self.new ≡ self.old }
    {
        if !(1..=STRUCTURES).contains(&structures) {
            return Err(Refusal::TooManyStructures);
        }
        *self = Chart::fresh(structures);
        Ok(())
    }

    fn fresh(structures: usize) -> Chart
        requires { (0 < structures) × (structures ≤ 32) }
        ensures { sheet result ≡ edit.begun structures }
    {
        Chart {
            table: [Row::first(); STRUCTURES],
            count: structures,
            most: 1,
        }
    }

    // How many structures there are.
    pub(crate) fn structures(&self) -> usize
        ensures { result ≡ length (sheet self.now) }
    {
        self.count
    }

    // A structure's row, if there is such a structure.
    pub(crate) fn find_row(&self, i: usize) -> Option<&Row>
        ensures there { is_some result ≡ nat_lt i (length (sheet self.now)) }
        ensures row { MatchOption result (at (sheet self.now) i ≡ nothing) (λ r. structure_of r.now ≡ at (sheet self.now) i) }
        ensures few { IfSome result (λ r. r.now.used ≤ 16) }
    {
        self.table[..self.count].get(i)
    }

    // The row of a structure that there is. An index that is there is asked for here and by what writes a row: a type of such
    // indices would have to name its chart.
    pub(crate) fn row(&self, i: usize) -> Row
        requires { i < length (sheet self.now) }
        ensures row { structure_of result ≡ at (sheet self.now) i }
        ensures few { result.used ≤ 16 }
    {
        self.table[i]
    }

    // The chart with one row written, which has no fewer places than it had.
    // The table is changed as a copy and the chart is written whole: what a chart keeps holds of it before and after.
    pub(crate) fn write(&mut self, i: usize, row: Row)
        requires within { i < length (sheet self.old) }
        requires few { row.used ≤ 16 }
        requires more { length (at (sheet self.old) i).places ≤ length (structure_of row).places }
        requires sound { ∥ Sound (slice_set (sheet self.old) i (structure_of row)) ∥₁ }
        ensures { sheet self.new ≡ slice_set (sheet self.old) i (structure_of row) }
    {
        let mut table = self.table;
        table[i] = row;
        *self = Chart {
            table,
            count: self.count,
            most: self.most.max(row.size()),
        };
    }
}
