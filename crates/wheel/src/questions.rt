// A wheel as a hierarchy. Structure i has an entry 0, items from 1 to its size, and an end.
// The size takes as many steps as there are levels, any other answer a constant number.
ghost use Rattle.std.specs.Prelude.{◌≡◌, ◌&&◌, ◌==◌};
ghost use Rattle.wheel.specs.Meaning.{wheel, is_entry_lem, is_item_lem, is_end_lem, is_last, is_box_lem, leads, largest};
ghost use Rattle.wheel.specs.Made.{sizes_of, made_lawful};

use crate::Wheel;
use hierarchy::{Hierarchy, Look, Place, Size};

impl Hierarchy for Wheel {
    ghost meaning = { λ x. wheel (sizes_of x) };

    ghost lawful = { made_lawful };

    fn size(&self) -> Option<Size> {
        Some(Size {
            structures: self.levels(),
            places: self.largest() + 2,
        })
    }

    fn place(&self, i: usize, p: usize) -> Place {
        if self.is_item(i, p) {
            if self.is_last(i) {
                Place::Node
            } else {
                Place::Box(i + 1)
            }
        } else if self.is_entry(i, p) | self.is_end(i, p) {
            Place::Node
        } else {
            Place::Absent
        }
    }

    fn entry(&self, _i: usize) -> usize {
        0
    }

    fn is_exit(&self, i: usize, p: usize) -> bool {
        self.is_end(i, p)
    }

    fn look(&self, i: usize, p: usize) -> Look {
        let mark = self.is_outer_end(i, p);
        let letter = if mark {
            1
        } else if self.is_item(i, p) & self.is_last(i) {
            2
        } else {
            0
        };
        Look { letter, mark }
    }

    fn has_edge(&self, i: usize, p: usize, w: usize) -> bool {
        !self.is_box(i, p) & self.leads(i, p, w)
    }

    // A box is left by its inner end.
    fn has_leave(&self, i: usize, b: usize, e: usize, w: usize) -> bool {
        self.is_box(i, b) && self.is_end(i + 1, e) & self.leads(i, b, w)
    }
}

// The tests that the answers are made of. They are joined by `&` and `|`: each side is cheap and may always be asked, and
// a loop over places then has fewer branches.
#[tactic(auto, using(std::proofs::lemmas::Bool::Decides::nat_tests), unfolding(crate::specs::Meaning::is_entry_lem, crate::specs::Meaning::is_item_lem, crate::specs::Meaning::is_end_lem, crate::specs::Meaning::is_box_lem))]
impl Wheel {
    fn is_entry(&self, i: usize, p: usize) -> bool
        ensures { result ≡ is_entry_lem (sizes_of self.now) i p }
    {
        (i < self.levels()) & (p == 0)
    }

    fn is_item(&self, i: usize, p: usize) -> bool
        ensures { result ≡ is_item_lem (sizes_of self.now) i p }
    {
        (i < self.levels()) & (0 < p) & (p <= self.level_size(i))
    }

    fn is_end(&self, i: usize, p: usize) -> bool
        ensures { result ≡ is_end_lem (sizes_of self.now) i p }
    {
        (i < self.levels()) & (p == self.level_size(i) + 1)
    }

    // Whether this is the end of structure 0.
    fn is_outer_end(&self, i: usize, p: usize) -> bool
        ensures { result ≡ (i == 0 && is_end_lem (sizes_of self.now) i p) }
    {
        (i == 0) & self.is_end(i, p)
    }

    // Whether structure `i` is the last.
    fn is_last(&self, i: usize) -> bool
        ensures { result ≡ is_last (sizes_of self.now) i }
    {
        i == self.levels() - 1
    }

    fn is_box(&self, i: usize, p: usize) -> bool
        ensures { result ≡ is_box_lem (sizes_of self.now) i p }
    {
        self.is_item(i, p) & !self.is_last(i)
    }

    // Whether the place `p` of structure `i` leads to `w`: each leads to the next, and the end of structure 0 to 0.
    fn leads(&self, i: usize, p: usize, w: usize) -> bool
        ensures { result ≡ leads (sizes_of self.now) i p w }
    {
        if self.is_entry(i, p) | self.is_item(i, p) {
            return w == p + 1;
        }
        self.is_outer_end(i, p) & (w == 0)
    }

    // The largest size of a level.
    fn largest(&self) -> usize
        ensures { result ≡ largest (sizes_of self.now) }
    {
        self.sizes().iter().copied().max().unwrap_or(0)
    }
}
