// Where a walk stands: the boxes, the node and the mark of the flat state that it shows.
// Asking alters nothing.
ghost use Rattle.std.specs.Prelude.{◌≡◌, List, length};
ghost use Rattle.hierarchy.specs.Flat.{last_node};
ghost use Rattle.hierarchy.specs.Meaning.{Meaning};
ghost use Rattle.walk.specs.Shown.{boxes_of, box_places, box_in, mark_of, structure_behind_lem, outer_frames};
ghost use Rattle.walk.specs.Steps.{state_shown};

use crate::frame::Frame;
use crate::steps::Walk;
use hierarchy::{Hierarchy, Place};

// The structure behind the boxes at which the frames stand; behind a place that is no box it is structure 0.
// Not `locate`: a state is shown whatever the frames hold, and behind what is no box it goes on in structure 0.
fn structure_behind<B: Hierarchy>(h: &B, frames: &[Frame]) -> usize
    ensures { result ≡ structure_behind_lem (B.Hierarchy.meaning h.now) 0 frames.now }
{
    let mut structure = 0;
    for f in frames {
        structure = match h.place(structure, f.place) {
            Place::Box(inner) => inner,
            Place::Node | Place::Absent => 0,
        };
    }
    structure
}

impl Walk {
    // The frames in which the walk's outer levels are, the outermost first.
    fn levels<'a>(&self, frames: &'a [Frame]) -> &'a [Frame]
        ensures { result.now ≡ outer_frames self.now frames.now }
    {
        let depth = self.stand.map_or(0, |stand| stand.depth);
        frames.get(..depth).unwrap_or(frames)
    }

    // The frames that stand at the boxes of the shown state, the outermost first.
    pub fn outer<'a>(&self, frames: &'a [Frame]) -> &'a [Frame]
        ensures outer { result.now ≡ outer_frames self.now frames.now }
        ensures boxes { (m : Meaning) → boxes_of (state_shown m self.now frames.now) ≡ box_places result.now }
    {
        self.levels(frames)
    }

    // How many boxes the shown state has.
    pub fn boxes(&self, frames: &[Frame]) -> usize
        ensures { (m : Meaning) → result ≡ length (boxes_of (state_shown m self.now frames.now)) }
    {
        self.outer(frames).len()
    }

    // One of its boxes, counted from the outermost.
    pub fn box_at(&self, frames: &[Frame], index: usize) -> Option<usize>
        ensures { (m : Meaning) → result ≡ box_in (boxes_of (state_shown m self.now frames.now)) index }
    {
        self.outer(frames).get(index).map(|frame| frame.place)
    }

    // Its node.
    pub fn node<B: Hierarchy>(&self, h: &B) -> usize
        ensures { (fs : List Frame) → result ≡ last_node (state_shown (B.Hierarchy.meaning h.now) self.now fs) }
    {
        self.stand
            .map_or_else(|| h.entry(0), |stand| stand.last.place)
    }

    // Whether it is marked.
    pub fn is_marked<B: Hierarchy>(&self, h: &B, frames: &[Frame]) -> bool
        ensures { result ≡ mark_of (B.Hierarchy.meaning h.now) (state_shown (B.Hierarchy.meaning h.now) self.now frames.now) }
    {
        let structure = structure_behind(h, self.outer(frames));
        h.look(structure, self.node(h)).mark
    }
}
