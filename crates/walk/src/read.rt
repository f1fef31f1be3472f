// Reading the search trees of a guide from memory, whatever it holds.
// A climb in a tree is never longer than two rows of places.
ghost use Rattle.std.specs.Prelude.{◌≡◌, ◌+◌, ◌≤◌};
ghost use Rattle.guide.specs.Trees.{up, parent as tree_parent, entry_at as tree_entry};
ghost use Rattle.walk.specs.Levels.{tree_of, goal_of_lem};
ghost use Rattle.walk.specs.Memory.{guide_by, spot_told, tree_told};

use crate::frame::{Frame, Way};
use guide::{Entry, GuideRecord, Lane};
use hierarchy::Size;

// A guide in lent memory, the size of the hierarchy that it is for, and the structure that has the ring.
#[derive(Clone, Copy)]
pub struct Plan<'a> {
    pub guide: &'a [GuideRecord],
    pub size: Size,
    pub home: usize,
}

#[derive(Clone, Copy)]
pub enum Tree {
    Plain,
    Marked,
    Ring,
}

// The tree in which a level goes its way.
impl From<Way> for Tree {
    ghost from_gives = { λ way tree. tree_told tree ≡ tree_of way };

    fn from(way: Way) -> Tree {
        match way {
            Way::Pass | Way::Lead => Tree::Plain,
            Way::PassMarked => Tree::Marked,
            Way::Ring => Tree::Ring,
        }
    }
}

// A place of a tree.
#[derive(Clone, Copy)]
pub struct Spot {
    pub tree: Tree,
    pub place: usize,
}

impl Spot {
    // Where a level goes.
    pub(crate) fn goal_of(level: Frame) -> Spot
        ensures { spot_told result ≡ goal_of_lem level }
    {
        Spot {
            tree: Tree::from(level.way),
            place: level.goal,
        }
    }
}

impl Plan<'_> {
    // The entry of a place of structure `structure` in a tree.
    pub(crate) fn entry_of(&self, structure: usize, spot: Spot) -> Entry
        ensures { result ≡ tree_entry (guide_by self.now).tree structure (spot_told spot) }
    {
        let (lane, row) = match spot.tree {
            Tree::Plain => (Lane::Plain, structure),
            Tree::Marked => (Lane::Marked, structure),
            Tree::Ring => (Lane::Plain, self.size.structures),
        };
        guide::entry_at(self.guide, self.size.places, lane, row, spot.place)
    }

    // How many tree edges lead from a place up to the root.
    pub(crate) fn depth_of(&self, structure: usize, tree: Tree, place: usize) -> usize
        ensures { result ≡ ((guide_by self.now).tree (tree_told tree) structure place).depth }
    {
        self.entry_of(structure, Spot { tree, place }).depth
    }

    // The place of the structure to go to.
    pub(crate) fn aim_of(&self, structure: usize) -> usize
        ensures { result ≡ (guide_by self.now).aim structure }
    {
        guide::aim_at(self.guide, self.size.places, structure)
    }

    // One tree edge up: from a seed into the plain tree.
    fn parent(&self, structure: usize, spot: Spot) -> Spot
        ensures { spot_told result ≡ tree_parent (guide_by self.now).tree structure (spot_told spot) }
    {
        let entry = self.entry_of(structure, spot);
        Spot {
            tree: if entry.seed { Tree::Plain } else { spot.tree },
            place: entry.from,
        }
    }

    // The ancestor of a place, so many tree edges up. The bound is asked from call to call: frames are lent, so no type
    // keeps it.
    pub(crate) fn climb(&self, structure: usize, start: Spot, edges: usize) -> Spot
        requires { edges ≤ self.now.size.places + self.now.size.places }
        ensures { spot_told result ≡ up (guide_by self.now).tree structure (spot_told start) edges }
    {
        let mut spot = start;
        for _ in 0..edges {
            spot = self.parent(structure, spot);
        }
        spot
    }
}
