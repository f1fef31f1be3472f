// Edits as values, applied one by one or as a list.
ghost use Rattle.std.specs.Prelude.{◌≡◌, false, is_ok};
ghost use Rattle.chart.specs.Charts.{sheet};
ghost use Rattle.sheet.specs.Replay.{applied, replayed};

use crate::chart::Chart;
use hierarchy::Refusal;
use sheet::Edit;

impl Chart {
    // Makes one edit, whichever it is; node and box answer the new place's number.
    pub fn apply(&mut self, edit: Edit) -> Result<Option<usize>, Refusal>
        ensures answer { result ≡ (applied (sheet self.old) edit).answer }
        ensures after { sheet self.new ≡ (applied (sheet self.old) edit).sheet }
        ensures unchanged { is_ok result ≡ false → self.new ≡ self.old }
    {
        match edit {
            Edit::Node { i, look } => self.node(i, look).map(Some),
            Edit::Box { i, inner } => self.add_box(i, inner).map(Some),
            Edit::Exit { i, p } => self.exit(i, p).map(|()| None),
            Edit::Look { i, p, look } => self.look(i, p, look).map(|()| None),
            Edit::Edge { i, p, w } => self.edge(i, p, w).map(|()| None),
            Edit::Leave { i, b, e, w } => self.leave(i, b, e, w).map(|()| None),
            Edit::Unedge { i, p, w } => self.unedge(i, p, w).map(|()| None),
            Edit::Unleave { i, b, e, w } => self.unleave(i, b, e, w).map(|()| None),
        }
    }

    // Makes all edits of a list, in order; one that is refused alters nothing.
    // Chart and monitor each have this loop: a trait for it would be longer than both.
    pub fn replay(&mut self, edits: &[Edit])
        ensures { sheet self.new ≡ replayed (sheet self.old) edits.now }
    {
        for edit in edits {
            let _ = self.apply(*edit);
        }
    }
}
