// The edits of edges and leaves.
ghost use Rattle.std.specs.Prelude.{◌≡◌, ◌<◌, true, false, [], ◌∷◌, is_ok};
ghost use Rattle.chart.specs.Charts.{sheet};
ghost use Rattle.std.specs.Result.{result_err};
ghost use Rattle.hierarchy.specs.Refusals.{first};
ghost use Rattle.sheet.specs.Edits as edit;

use crate::chart::Chart;
use hierarchy::{Hierarchy, Refusal};
use sheet::Spot;

impl Chart {
    // Adds an edge from the node `p` to the place `w` of structure `i`.
    pub fn edge(&mut self, i: usize, p: usize, w: usize) -> Result<(), Refusal>
        ensures answer { result ≡ (edit.set_edge_lem (sheet self.old) i p w true).answer }
        ensures after { sheet self.new ≡ (edit.set_edge_lem (sheet self.old) i p w true).sheet }
        ensures unchanged { is_ok result ≡ false → self.new ≡ self.old }
    {
        self.set_edge(i, p, w, true)
    }

    // Erases the edge from `p` to `w` of structure `i`.
    pub fn unedge(&mut self, i: usize, p: usize, w: usize) -> Result<(), Refusal>
        ensures answer { result ≡ (edit.set_edge_lem (sheet self.old) i p w false).answer }
        ensures after { sheet self.new ≡ (edit.set_edge_lem (sheet self.old) i p w false).sheet }
        ensures unchanged { is_ok result ≡ false → self.new ≡ self.old }
    {
        self.set_edge(i, p, w, false)
    }

    // Adds a leave: from the box `b` of structure `i`, by the exit `e` of its inner structure, to the place `w`.
    pub fn leave(&mut self, i: usize, b: usize, e: usize, w: usize) -> Result<(), Refusal>
        ensures answer { result ≡ (edit.set_leave_lem (sheet self.old) i b e w true).answer }
        ensures after { sheet self.new ≡ (edit.set_leave_lem (sheet self.old) i b e w true).sheet }
        ensures unchanged { is_ok result ≡ false → self.new ≡ self.old }
    {
        self.set_leave(i, b, e, w, true)
    }

    // Erases the leave from `b` by `e` to `w` of structure `i`.
    pub fn unleave(&mut self, i: usize, b: usize, e: usize, w: usize) -> Result<(), Refusal>
        ensures answer { result ≡ (edit.set_leave_lem (sheet self.old) i b e w false).answer }
        ensures after { sheet self.new ≡ (edit.set_leave_lem (sheet self.old) i b e w false).sheet }
        ensures unchanged { is_ok result ≡ false → self.new ≡ self.old }
    {
        self.set_leave(i, b, e, w, false)
    }

    // Whether the edge is to be there is a `bool`, as it is for the sheet: both edits have one definition.
    // The fields of an edit are parameters of their own here, as in the questions of a hierarchy.
    fn set_edge(&mut self, i: usize, p: usize, w: usize, there: bool) -> Result<(), Refusal>
        ensures answer { result ≡ (edit.set_edge_lem (sheet self.old) i p w there).answer }
        ensures after { sheet self.new ≡ (edit.set_edge_lem (sheet self.old) i p w there).sheet }
        ensures unchanged { is_ok result ≡ false → self.new ≡ self.old }
    {
        self.check_edge(i, p, w, there)?;
        let row = self.row(i);
        self.write(i, row.with_edge(p, w, there));
        Ok(())
    }

    // The same of a leave.
    fn set_leave(
        &mut self,
        i: usize,
        b: usize,
        e: usize,
        w: usize,
        there: bool,
    ) -> Result<(), Refusal>
        ensures answer { result ≡ (edit.set_leave_lem (sheet self.old) i b e w there).answer }
        ensures after { sheet self.new ≡ (edit.set_leave_lem (sheet self.old) i b e w there).sheet }
        ensures unchanged { is_ok result ≡ false → self.new ≡ self.old }
    {
        self.check_leave(i, b, e, w, there)?;
        let row = self.row(i);
        self.write(i, row.with_leave(b, e, w, there));
        Ok(())
    }

    fn check_edge(&self, i: usize, p: usize, w: usize, there: bool) -> Result<(), Refusal>
        ensures { result_err result ≡ first (edit.edge_refusals (sheet self.now) i p w there) }
    {
        let row = self.find_row(i).ok_or(Refusal::NoStructure)?;
        let from = row.spot(p).ok_or(Refusal::NoPlace)?;
        row.spot(w).ok_or(Refusal::NoPlace)?;
        match from {
            Spot::Node { .. } => check_change(there, row.is_edge(p, w)),
            Spot::Box { .. } => Err(Refusal::NotANode),
        }
    }

    fn check_leave(
        &self,
        i: usize,
        b: usize,
        e: usize,
        w: usize,
        there: bool,
    ) -> Result<(), Refusal>
        ensures { result_err result ≡ first (edit.leave_refusals (sheet self.now) i b e w there) }
    {
        let row = self.find_row(i).ok_or(Refusal::NoStructure)?;
        let from = row.spot(b).ok_or(Refusal::NoPlace)?;
        row.spot(w).ok_or(Refusal::NoPlace)?;
        match from {
            Spot::Box { inner } if self.is_exit(inner, e) => {
                check_change(there, row.is_leave(b, e, w))
            }
            Spot::Box { .. } => Err(Refusal::NotAnExit),
            Spot::Node { .. } => Err(Refusal::NotABox),
        }
    }
}

// What is there already cannot be added, and what is not there cannot be erased.
fn check_change(add: bool, there: bool) -> Result<(), Refusal>
    ensures { result_err result ≡ first (edit.already add there ∷ []) }
{
    match (add, there) {
        (true, true) => Err(Refusal::AlreadyThere),
        (false, false) => Err(Refusal::NotThere),
        _ => Ok(()),
    }
}
