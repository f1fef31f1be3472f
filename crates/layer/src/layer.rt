// A monitor laid over a hierarchy is again a hierarchy: the product of both.
// The monitor stays as it was when it was laid.
ghost use Rattle.std.specs.Prelude.{◌≡◌, not};
ghost use Rattle.monitor.specs.Product.{product};
ghost use Rattle.monitor.specs.Tables.{automaton_of};
ghost use Rattle.layer.specs.Lawful.{layer_lawful};

use crate::spread::size_above;
use hierarchy::{Hierarchy, Look, Place, Size};
use monitor::Monitor;

// It answers by itself, and not as the pile of its one monitor: layers nest in types, so that no question needs to find
// out what lies below. Exits, edges and leaves are asked below before the size is, so that most answers of no cost one
// question below. Each layer at least doubles both sizes, so that at most ten stand on one another before they are too
// large. Over k layers a size, place, entry or exit costs at most k + 1 questions to the hierarchy at the bottom, a look
// about k * k / 2, and an edge or a leave that is there about k * k * k / 6. A pile asks less.
#[derive_where(Clone, Copy)]
pub struct Layer<'a, B> {
    below: &'a B,
    monitor: Monitor,
}

impl<'a, B: Hierarchy> Layer<'a, B> {
    // Lays the monitor over what is below.
    pub fn new(below: &'a B, monitor: &Monitor) -> Layer<'a, B>
        ensures below { result.below ≡ below.entry }
        ensures monitor { result.monitor ≡ monitor.now }
    {
        Layer {
            below,
            monitor: *monitor,
        }
    }

    // Whether the layer is not too large.
    fn fits(&self) -> bool
        ensures { result ≡ not (product (B.Hierarchy.meaning self.now.below.now) (automaton_of self.now.monitor)).large }
    {
        self.size().is_some()
    }
}

impl<'a, B: Hierarchy> Hierarchy for Layer<'a, B> {
    ghost meaning = { λ x. product (B.Hierarchy.meaning x.below.now) (automaton_of x.monitor) };

    ghost lawful = { λ x. layer_lawful x.monitor (B.Hierarchy.lawful x.below.now) };

    fn size(&self) -> Option<Size> {
        size_above(self.below.size()?, self.monitor.width())
    }

    fn place(&self, i: usize, p: usize) -> Place {
        if !self.fits() {
            return Place::Absent;
        }
        let f = self.monitor.width();
        match self.below.place(i / f, p / f) {
            Place::Box(j) => Place::Box(j * f + p % f),
            other => other,
        }
    }

    fn entry(&self, i: usize) -> usize {
        let Some(size) = self.size() else {
            return 0;
        };
        if i >= size.structures {
            return 0;
        }
        let f = self.monitor.width();
        self.below.entry(i / f) * f + i % f
    }

    fn is_exit(&self, i: usize, p: usize) -> bool {
        let f = self.monitor.width();
        self.below.is_exit(i / f, p / f) && self.fits()
    }

    fn look(&self, i: usize, p: usize) -> Look {
        if !self.fits() {
            return Look::default();
        }
        let f = self.monitor.width();
        let Look { letter, .. } = self.below.look(i / f, p / f);
        let mark = self.monitor.marks(p) && self.below.place(i / f, p / f) == Place::Node;
        Look { letter, mark }
    }

    fn has_edge(&self, i: usize, p: usize, w: usize) -> bool {
        let f = self.monitor.width();
        if !self.below.has_edge(i / f, p / f, w / f) || !self.fits() {
            return false;
        }
        let left = self.below.look(i / f, p / f);
        self.monitor.moves(left, p, w)
    }

    fn has_leave(&self, i: usize, b: usize, e: usize, w: usize) -> bool {
        let f = self.monitor.width();
        if !self.below.has_leave(i / f, b / f, e / f, w / f) || !self.fits() {
            return false;
        }
        match self.below.place(i / f, b / f) {
            Place::Box(j) => {
                let left = self.below.look(j, e / f);
                self.monitor.moves(left, e, w)
            }
            _ => false,
        }
    }
}
