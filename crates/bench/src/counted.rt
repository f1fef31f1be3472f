// A hierarchy that counts the questions it is asked, and answers each as the one below it does.
// The count is no part of what it means, so that the judge says of it what it says of the one below.
ghost use Rattle.std.specs.Prelude.{◌≡◌};

use hierarchy::{Hierarchy, Look, Place, Size};
use std::cell::Cell;

#[derive(Drop)]
pub struct Counted<'a, B> {
    below: &'a B,
    asked: Cell<u64>,
}

impl<'a, B: Hierarchy> Counted<'a, B> {
    // Nothing is asked yet.
    pub fn new(below: &'a B) -> Counted<'a, B>
        ensures { result.below ≡ below.entry }
    {
        Counted {
            below,
            asked: Cell::new(0),
        }
    }

    // One question more.
    fn count(&self) {
        self.asked.set(self.asked.get().saturating_add(1));
    }

    // How many questions were asked. No contract says it: a clause knows nothing of what a cell holds.
    pub fn asked(&self) -> u64 {
        self.asked.get()
    }
}

impl<'a, B: Hierarchy> Hierarchy for Counted<'a, B> {
    ghost meaning = { λ x. B.Hierarchy.meaning x.below.now };

    ghost lawful = { λ x. B.Hierarchy.lawful x.below.now };

    fn size(&self) -> Option<Size> {
        self.count();
        self.below.size()
    }

    fn place(&self, i: usize, p: usize) -> Place {
        self.count();
        self.below.place(i, p)
    }

    fn entry(&self, i: usize) -> usize {
        self.count();
        self.below.entry(i)
    }

    fn is_exit(&self, i: usize, p: usize) -> bool {
        self.count();
        self.below.is_exit(i, p)
    }

    fn look(&self, i: usize, p: usize) -> Look {
        self.count();
        self.below.look(i, p)
    }

    fn has_edge(&self, i: usize, p: usize, w: usize) -> bool {
        self.count();
        self.below.has_edge(i, p, w)
    }

    fn has_leave(&self, i: usize, b: usize, e: usize, w: usize) -> bool {
        self.count();
        self.below.has_leave(i, b, e, w)
    }
}
