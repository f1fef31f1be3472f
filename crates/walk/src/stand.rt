// One step of a walk over frames, checked: whatever guide and frames hold, what it answers is a transition.
// It asks before it writes, so a refusal alters nothing.
ghost use Rattle.std.specs.Prelude.{◌≡◌, ◌+◌, ◌≤◌, length, take, nat_lt};
ghost use Rattle.walk.specs.Memory.{guide_by};
ghost use Rattle.walk.specs.Standing.{located, graft, around, Hops, allowed, Landed, Outcome, OutcomeOf};

use crate::frame::Frame;
use crate::level::Guided;
use crate::read::Plan;
use hierarchy::{Hierarchy, Place};

// How many frames are outer levels, and the innermost level. The frames are lent anew for each step, and stand beside the
// walk, which is plain numbers.
#[derive(Clone, Copy)]
pub struct Stand {
    pub depth: usize,
    pub last: Frame,
}

// The structure that the frames lead to, if each stands at a box of its structure.
fn locate<B: Hierarchy>(h: &B, frames: &[Frame]) -> Option<usize>
    ensures { result ≡ located (B.Hierarchy.meaning h.now) 0 frames.now }
{
    let mut structure = 0;
    for f in frames {
        let Place::Box(inner) = h.place(structure, f.place) else {
            return None;
        };
        structure = inner;
    }
    Some(structure)
}

impl Plan<'_> {
    // Whether a level has more tree edges left than a tree can have.
    // Two rows, said without a sum, which could overflow: the size is any.
    fn is_far(&self, level: Frame) -> bool
        ensures { result ≡ nat_lt (self.now.size.places + self.now.size.places) level.left }
    {
        self.size.places < level.left.saturating_sub(self.size.places)
    }
}

impl<B: Hierarchy> Guided<'_, B> {
    // A level has come to a place, below the first `depth` frames.
    fn land(
        &self,
        frames: &mut [Frame],
        depth: usize,
        structure: usize,
        level: Frame,
    ) -> Option<Stand>
        requires { depth ≤ length frames.old }
        ensures { Landed (B.Hierarchy.meaning self.now.h.now) (guide_by self.now.plan) depth structure level frames.old frames.new result }
    {
        let turned = self.plan.turned(structure, level);
        if self.plan.is_far(turned) {
            return None;
        }
        match self.h.place(structure, level.place) {
            Place::Absent => None,
            Place::Node => Some(Stand {
                depth,
                last: turned,
            }),
            Place::Box(into) => {
                if depth >= frames.len() {
                    return None;
                }
                let last = self.inner(structure, turned, into);
                // by index: after `get_mut` of a slice nothing is known of its elements
                frames[depth] = turned;
                Some(Stand {
                    depth: depth + 1,
                    last,
                })
            }
        }
    }

    // Whether a level may go to a place: over an edge, or, where a level inside it has come to its exit, out of the box by
    // that exit.
    fn allows(&self, structure: usize, level: Frame, inside: Option<Frame>, place: usize) -> bool
        ensures { result ≡ allowed (B.Hierarchy.meaning self.now.h.now) structure level inside place }
    {
        match inside {
            None => self.h.has_edge(structure, level.place, place),
            Some(last) => self.h.has_leave(structure, level.place, last.place, place),
        }
    }

    // The level below the first `depth` frames makes its next hop.
    fn go(
        &self,
        frames: &mut [Frame],
        depth: usize,
        level: Frame,
        inside: Option<Frame>,
    ) -> Option<Stand>
        requires within { depth ≤ length frames.old }
        requires hops { Hops level inside }
        ensures { OutcomeOf (B.Hierarchy.meaning self.now.h.now) (guide_by self.now.plan) (graft (take depth frames.old) (around level inside)) frames.old frames.new result }
    {
        let structure = locate(self.h, &frames[..depth])?;
        if self.plan.is_far(level) {
            return None;
        }
        let next = self.plan.hop(structure, level);
        if !self.allows(structure, level, inside, next.place) {
            return None;
        }
        self.land(frames, depth, structure, next)
    }

    // Where the walk stands after one transition, if the guide names one from where it stands.
    pub(crate) fn moved(&self, frames: &mut [Frame], stand: Stand) -> Option<Stand>
        ensures { Outcome (B.Hierarchy.meaning self.now.h.now) (guide_by self.now.plan) frames.old frames.new stand result }
    {
        let Stand { depth, last } = stand;
        if frames.len() < depth {
            return None;
        }
        if last.way.is_pass() && last.left == 0 {
            // the innermost level, a pass at its exit, is gone
            let depth = depth.checked_sub(1)?;
            let outer = frames[depth];
            self.go(frames, depth, outer, Some(last))
        } else {
            self.go(frames, depth, last, None)
        }
    }
}
