// What monitors spread out answer: the base's answer, or that of the monitor on top by what is answered below.
ghost use Rattle.std.specs.Prelude.{◌≡◌, ◌*◌, ◌<◌, ◌≤◌, ◌&&◌, ◌||◌, not, if◌then◌else◌, None, nat_lt};
ghost use Rattle.hierarchy.specs.Answers.{place_told, size_told, look_told, fits};
ghost use Rattle.layer.specs.Spreads.{spread_of, pile_of};

use super::Spread;
use hierarchy::{Hierarchy, Look, Place, Size};

// How many structures and places a hierarchy has at most.
const LARGEST: usize = 1024;

impl<'a, B: Hierarchy> Spread<'a, B> {
    // The size of the pile of these monitors.
    pub(crate) fn size(&self) -> Option<Size>
        ensures { result ≡ size_told (pile_of B.Hierarchy.meaning self.now) }
    {
        let Some((top, below)) = self.split() else {
            return self.base.size();
        };
        size_above(below.size()?, top.width())
    }

    // Whether that pile is not too large.
    pub(crate) fn fits(&self) -> bool
        ensures { result ≡ not (pile_of B.Hierarchy.meaning self.now).large }
    {
        self.size().is_some()
    }

    pub(crate) fn place(&self, i: usize, p: usize) -> Place
        ensures { result ≡ place_told ((spread_of B.Hierarchy.meaning self.now).place i p) }
    {
        let Some((top, below)) = self.split() else {
            return self.base.place(i, p);
        };
        let f = top.width();
        match below.place(i / f, p / f) {
            Place::Box(j) => Place::Box(j * f + p % f),
            other => other,
        }
    }

    // The entry of a structure that is there.
    pub(crate) fn entry(&self, i: usize) -> usize
        requires { i < (spread_of B.Hierarchy.meaning self.now).structures }
        ensures { result ≡ (spread_of B.Hierarchy.meaning self.now).entry i }
    {
        let Some((top, below)) = self.split() else {
            return self.base.entry(i);
        };
        let f = top.width();
        below.entry(i / f) * f + i % f
    }

    pub(crate) fn is_exit(&self, i: usize, p: usize) -> bool
        ensures { result ≡ (spread_of B.Hierarchy.meaning self.now).exits i p }
    {
        let Some((top, below)) = self.split() else {
            return self.base.is_exit(i, p);
        };
        let f = top.width();
        below.is_exit(i / f, p / f)
    }

    fn letter(&self, i: usize, p: usize) -> u8
        ensures { result ≡ (spread_of B.Hierarchy.meaning self.now).letter i p }
    {
        let Some((top, below)) = self.split() else {
            return self.base.look(i, p).letter;
        };
        let f = top.width();
        below.letter(i / f, p / f)
    }

    pub(crate) fn look(&self, i: usize, p: usize) -> Look
        ensures { result ≡ look_told (spread_of B.Hierarchy.meaning self.now) i p }
    {
        let Some((top, below)) = self.split() else {
            return self.base.look(i, p);
        };
        let f = top.width();
        let letter = below.letter(i / f, p / f);
        let mark = top.marks(p) && below.place(i / f, p / f) == Place::Node;
        Look { letter, mark }
    }

    // Whether there is such an edge, and `whole`, the pile that these monitors are part of, is not too large. Its size is
    // asked where the base has said yes, and no monitor yet: so a no of the base costs one question there, and too large
    // a pile two.
    pub(crate) fn has_edge(&self, whole: &Spread<'a, B>, i: usize, p: usize, w: usize) -> bool
        ensures { result ≡ ((spread_of B.Hierarchy.meaning self.now).edge i p w && not (pile_of B.Hierarchy.meaning whole.now).large) }
    {
        let Some((top, below)) = self.split() else {
            return self.base.has_edge(i, p, w) && whole.fits();
        };
        let f = top.width();
        below.has_edge(whole, i / f, p / f, w / f) && top.moves(below.look(i / f, p / f), p, w)
    }

    // The same of a leave.
    pub(crate) fn has_leave(
        &self,
        whole: &Spread<'a, B>,
        i: usize,
        b: usize,
        e: usize,
        w: usize,
    ) -> bool
        ensures { result ≡ ((spread_of B.Hierarchy.meaning self.now).leave i b e w && not (pile_of B.Hierarchy.meaning whole.now).large) }
    {
        let Some((top, below)) = self.split() else {
            return self.base.has_leave(i, b, e, w) && whole.fits();
        };
        let f = top.width();
        if !below.has_leave(whole, i / f, b / f, e / f, w / f) {
            return false;
        }
        match below.place(i / f, b / f) {
            Place::Box(j) => top.moves(below.look(j, e / f), e, w),
            _ => false,
        }
    }
}

// The sizes below, multiplied, unless one is then more than a hierarchy may have.
pub(crate) fn size_above(below: Size, width: usize) -> Option<Size>
    requires { (below.structures ≤ 1024) × ((below.places ≤ 1024) × (width ≤ 8)) }
    ensures { result ≡ (if nat_lt 1024 (below.structures * width) || nat_lt 1024 (below.places * width) then None else fits (below.structures * width) (below.places * width)) }
{
    let structures = below.structures * width;
    let places = below.places * width;
    if structures > LARGEST || places > LARGEST {
        return None;
    }
    Some(Size { structures, places })
}
