// Which structures are reached from structure 0 through boxes that are reached, and whether one of them has a mark.
// The first box through which a structure became known is kept: the way up from a structure to structure 0.
ghost use Rattle.std.specs.Prelude.{◌≡◌, ℕ, ◌<◌, false};
ghost use Rattle.theory.specs.Hops.{MarkedNode};
ghost use Rattle.guide.specs.Layout.{look};
ghost use Rattle.judge.specs.Tables.{Stands};
ghost use Rattle.judge.specs.Rows.{AllRows};
ghost use Rattle.judge.specs.Known.{OnlyUp, known, ToldBy, Shown, AllKnown, MarkIn, Decides};

use crate::judged::Judged;
use crate::table::{child, put};
use guide::{Entry, GuideRecord, Lane, entry_at};
use hierarchy::{Hierarchy, Place};

impl<'a, B: Hierarchy> Judged<'a, B> {
    // Whether structure `i` is known to be reached.
    pub(crate) fn is_known(&self, guide: &[GuideRecord], i: usize) -> bool
        ensures { result ≡ known (look guide.now self.now.places) i }
    {
        entry_at(guide, self.places, Lane::Up, i, 0).reached
    }

    // Makes known what the place `b` names, if it is a box that is reached.
    fn know_one(&self, guide: &mut [GuideRecord], structure: usize, b: usize)
        requires stands { Stands guide.old self.now.places self.now.structures }
        requires inside { structure < self.now.structures }
        requires below { b < self.now.places }
        ensures { ToldBy (B.Hierarchy.meaning self.now.h.now) structure b (look guide.old self.now.places) (look guide.new self.now.places) }
    {
        if entry_at(guide, self.places, Lane::Plain, structure, b).reached
            && let Place::Box(inner) = self.h.place(structure, b)
            && !self.is_known(guide, inner)
        {
            put(
                guide,
                self.places,
                Lane::Up,
                inner,
                0,
                child(structure, b, 0),
            );
        }
    }

    // Makes known what the reached boxes of a structure name.
    fn know_boxes(&self, guide: &mut [GuideRecord], structure: usize)
        requires stands { Stands guide.old self.now.places self.now.structures }
        requires inside { structure < self.now.structures }
        ensures { Shown (B.Hierarchy.meaning self.now.h.now) structure self.now.places (look guide.old self.now.places) (look guide.new self.now.places) }
    {
        for b in 0..self.places {
            self.know_one(guide, structure, b);
        }
    }

    // Makes no structure known.
    fn forget(&self, guide: &mut [GuideRecord])
        requires stands { Stands guide.old self.now.places self.now.structures }
        ensures rest { OnlyUp (look guide.old self.now.places) (look guide.new self.now.places) }
        ensures none { (j : ℕ) → j < self.now.structures → known (look guide.new self.now.places) j ≡ false }
    {
        for i in 0..self.structures {
            put(guide, self.places, Lane::Up, i, 0, Entry::blank());
        }
    }

    // Makes every reached structure known.
    pub(crate) fn know_all(&self, guide: &mut [GuideRecord])
        requires rows { AllRows (B.Hierarchy.meaning self.now.h.now) guide.old self.now.places self.now.structures }
        ensures rows { AllRows (B.Hierarchy.meaning self.now.h.now) guide.new self.now.places self.now.structures }
        ensures knows { AllKnown (B.Hierarchy.meaning self.now.h.now) (look guide.new self.now.places) }
    {
        self.forget(guide);
        put(guide, self.places, Lane::Up, 0, 0, child(0, 0, 0));
        for i in 0..self.structures {
            if self.is_known(guide, i) {
                self.know_boxes(guide, i);
            }
        }
    }

    // Whether the structure has a marked node that its entry reaches.
    fn marked_in(&self, guide: &[GuideRecord], structure: usize) -> bool
        requires rows { AllRows (B.Hierarchy.meaning self.now.h.now) guide.now self.now.places self.now.structures }
        requires inside { structure < self.now.structures }
        ensures { Decides result (MarkIn (B.Hierarchy.meaning self.now.h.now) structure) }
    {
        (0..self.places).any(|u| {
            entry_at(guide, self.places, Lane::Plain, structure, u).reached
                && self.h.look(structure, u).mark
        })
    }

    // Whether a known structure has a marked node that is reached.
    pub(crate) fn marked_any(&self, guide: &[GuideRecord]) -> bool
        requires rows { AllRows (B.Hierarchy.meaning self.now.h.now) guide.now self.now.places self.now.structures }
        requires knows { AllKnown (B.Hierarchy.meaning self.now.h.now) (look guide.now self.now.places) }
        ensures { Decides result (MarkedNode (B.Hierarchy.meaning self.now.h.now)) }
    {
        // a loop, since a closure would have to repeat what `marked_in` requires
        for i in 0..self.structures {
            if self.is_known(guide, i) && self.marked_in(guide, i) {
                return true;
            }
        }
        false
    }
}
