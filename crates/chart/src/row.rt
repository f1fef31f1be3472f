// One row of a chart's table: the places of a structure, its edges and its leaves.
// Rows are plain: what holds of them is the chart's to keep.
ghost use Rattle.std.specs.Prelude.{◌≡◌, ℕ, ◌+◌, ◌<◌, ◌≤◌, length, Some};
ghost use Rattle.std.specs.List.{slice_get};
ghost use Rattle.sheet.specs.Sheet.{exit?, look};
ghost use Rattle.chart.specs.Layout.{structure_of, ends_of, pairs_of};
ghost use Rattle.sheet.specs.Changes as change;

use sheet::Spot;

// How many places a structure has at most.
pub(crate) const PLACES: usize = 16;

// A set of places, a bit for each.
#[derive(Clone, Copy, Default)]
pub(crate) struct Ends {
    bits: u16,
}

// A set of pairs of places.
#[derive(Clone, Copy, Default)]
pub(crate) struct Pairs {
    from: [Ends; PLACES],
}

// One structure: its places, of which the first `used` count, its edges by start and end, its leaves by box, exit and end.
// Arrays of a fixed size with a count beside them: a chart uses no heap, and a row has no invariant of its own.
#[derive(Clone, Copy)]
pub(crate) struct Row {
    places: [Spot; PLACES],
    used: usize,
    edges: Pairs,
    leaves: [Pairs; PLACES],
}

impl Ends {
    #[tactic(auto, using(crate::proofs::Bits::test_bit, crate::proofs::Bits::no_bit_above))]
    fn has(self, y: usize) -> bool
        ensures { result ≡ ends_of self y }
    {
        y < PLACES && self.bits & (1 << y) != 0
    }

    // The set with y in it or not.
    fn with(self, y: usize, there: bool) -> Ends
        requires { y < 16 }
        ensures { ends_of result ≡ change.but y there (ends_of self) }
    {
        let bit = 1 << y;
        let bits = if there {
            self.bits | bit
        } else {
            self.bits & !bit
        };
        Ends { bits }
    }
}

impl Pairs {
    fn has(&self, x: usize, y: usize) -> bool
        ensures { result ≡ pairs_of self.now x y }
    {
        self.from.get(x).is_some_and(|ends| ends.has(y))
    }

    // The set with the pair (x, y) in it or not.
    fn with(mut self, x: usize, y: usize, there: bool) -> Pairs
        requires { (x < 16) × (y < 16) }
        ensures { pairs_of result ≡ change.but2 x y there (pairs_of self) }
    {
        self.from[x] = self.from[x].with(y, there);
        self
    }
}

#[tactic(auto, using(crate::proofs::Tables::take_set_at), unfolding(crate::specs::Layout::structure_of))]
impl Row {
    // A structure with its entry only.
    pub(crate) fn first() -> Row
        ensures is { structure_of result ≡ change.fresh }
        ensures used { result.used ≡ 1 }
    {
        let entry = Spot::Node {
            look: 0,
            exit: false,
        };
        let none = Pairs::default();
        Row {
            places: [entry; PLACES],
            used: 1,
            edges: none,
            leaves: [none; PLACES],
        }
    }

    // How many places there are: that the count fits is the chart's to keep.
    pub(crate) fn size(&self) -> usize
        requires { self.now.used ≤ 16 }
        ensures size { result ≡ length (structure_of self.now).places }
        ensures used { result ≡ self.now.used }
    {
        self.used
    }

    // What stands at a place, if anything does: by a test, since a row promises nothing of `used`.
    pub(crate) fn spot(&self, p: usize) -> Option<Spot>
        ensures { result ≡ slice_get (structure_of self.now).places p }
    {
        if p < self.used {
            self.places.get(p).copied()
        } else {
            None
        }
    }

    pub(crate) fn is_exit(&self, p: usize) -> bool
        ensures { result ≡ exit? (slice_get (structure_of self.now).places p) }
    {
        matches!(self.spot(p), Some(Spot::Node { exit: true, .. }))
    }

    // The look of a node, 0 of what is none.
    pub(crate) fn look(&self, p: usize) -> u8
        ensures { result ≡ look (slice_get (structure_of self.now).places p) }
    {
        match self.spot(p) {
            Some(Spot::Node { look, .. }) => look,
            _ => 0,
        }
    }

    pub(crate) fn is_edge(&self, p: usize, w: usize) -> bool
        ensures { result ≡ (structure_of self.now).edge p w }
    {
        self.edges.has(p, w)
    }

    pub(crate) fn is_leave(&self, b: usize, e: usize, w: usize) -> bool
        ensures { result ≡ (structure_of self.now).leave b e w }
    {
        self.leaves.get(b).is_some_and(|pairs| pairs.has(e, w))
    }

    // The row with the edge from p to w there or not.
    pub(crate) fn with_edge(mut self, p: usize, w: usize, there: bool) -> Row
        requires { (p < 16) × (w < 16) }
        ensures is { structure_of result ≡ change.with_edge_lem p w there (structure_of self) }
        ensures used { result.used ≡ self.used }
    {
        self.edges = self.edges.with(p, w, there);
        self
    }

    // The row with the leave from b by e to w there or not.
    pub(crate) fn with_leave(mut self, b: usize, e: usize, w: usize, there: bool) -> Row
        requires { (b < 16) × ((e < 16) × (w < 16)) }
        ensures is { structure_of result ≡ change.with_leave b e w there (structure_of self) }
        ensures used { result.used ≡ self.used }
    {
        self.leaves[b] = self.leaves[b].with(e, w, there);
        self
    }

    // The row with another spot at a place.
    pub(crate) fn with_spot(mut self, p: usize, spot: Spot) -> Row
        requires { p < 16 }
        ensures is { structure_of result ≡ change.with_spot_lem p spot (structure_of self) }
        ensures used { result.used ≡ self.used }
    {
        self.places[p] = spot;
        self
    }

    // The row with one place more.
    pub(crate) fn with_place(mut self, spot: Spot) -> Row
        requires { self.used < 16 }
        ensures is { structure_of result ≡ change.with_place_lem spot (structure_of self) }
        ensures used { result.used ≡ self.used + 1 }
    {
        self.places[self.used] = spot;
        self.used += 1;
        self
    }
}
