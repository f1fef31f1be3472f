// What one level of a walk does: its next hop, its turn at the goal, and the level that it pushes into a box.
// All of it is read from the guide; nothing here is asked whether it is a transition.
// A frame holds no structure: where it stands is found by the frames around it.
ghost use Rattle.std.specs.Prelude.{◌≡◌, ◌+◌, ◌≤◌};
ghost use Rattle.walk.specs.Levels.{hop as hopped, turned as level_turned, lead_level, pass_level, inner as inner_level};
ghost use Rattle.walk.specs.Memory.{guide_by, goes_round_lem};
ghost use Rattle.walk.specs.Planned.{Planned};

use crate::frame::{Frame, Way};
use crate::read::{Plan, Spot, Tree};
use guide::Entry;
use hierarchy::Hierarchy;

impl Plan<'_> {
    // The level after its next hop.
    pub(crate) fn hop(&self, structure: usize, mut level: Frame) -> Frame
        requires { level.left ≤ self.now.size.places + self.now.size.places }
        ensures { result ≡ hopped (guide_by self.now) structure level }
    {
        level.left = level.left.saturating_sub(1);
        level.place = self
            .climb(structure, Spot::goal_of(level), level.left)
            .place;
        level
    }

    // Whether a level that has come to its goal goes round the ring from there.
    fn goes_round(&self, structure: usize, way: Way) -> bool
        ensures { result ≡ goes_round_lem self.now structure way }
    {
        match way {
            Way::Pass | Way::PassMarked => false,
            Way::Lead => structure == self.home,
            Way::Ring => true,
        }
    }

    // At its goal at home a lead becomes a ring, and a ring begins again.
    pub(crate) fn turned(&self, structure: usize, mut level: Frame) -> Frame
        ensures { result ≡ level_turned (guide_by self.now) structure level }
    {
        if level.left == 0 && self.goes_round(structure, level.way) {
            level.way = Way::Ring;
            level.left = self.depth_of(structure, Tree::Ring, level.goal);
        }
        level
    }
}

// A hierarchy, and the plan of its size by which it is walked.
#[derive(Drop)]
pub struct Guided<'a, B: Hierarchy> {
    pub h: &'a B,
    pub plan: Plan<'a>,
    ghost planned: { Planned (B.Hierarchy.meaning h.now) plan },
}

impl<B: Hierarchy> Guided<'_, B> {
    // The level that goes from the structure's entry to its aim.
    pub(crate) fn lead(&self, structure: usize) -> Frame
        ensures { result ≡ lead_level (B.Hierarchy.meaning self.now.h.now) (guide_by self.now.plan) structure }
    {
        let goal = self.plan.aim_of(structure);
        let lead = Frame {
            place: self.h.entry(structure),
            way: Way::Lead,
            goal,
            left: self.plan.depth_of(structure, Tree::Plain, goal),
        };
        self.plan.turned(structure, lead)
    }

    // The level that goes from the structure's entry to the exit by which its box is left.
    fn pass(&self, structure: usize, next: Entry) -> Frame
        ensures { result ≡ pass_level (B.Hierarchy.meaning self.now.h.now) (guide_by self.now.plan) structure next }
    {
        let way = if next.seed && !self.h.look(structure, next.via).mark {
            Way::PassMarked
        } else {
            Way::Pass
        };
        Frame {
            place: self.h.entry(structure),
            way,
            goal: next.via,
            left: self.plan.depth_of(structure, Tree::from(way), next.via),
        }
    }

    // The level that a level at a box pushes into the structure that the box names.
    pub(crate) fn inner(&self, structure: usize, level: Frame, into: usize) -> Frame
        requires { level.left ≤ self.now.plan.size.places + self.now.plan.size.places }
        ensures { result ≡ inner_level (B.Hierarchy.meaning self.now.h.now) (guide_by self.now.plan) structure level into level.left }
    {
        if level.left == 0 {
            self.lead(into)
        } else {
            let spot = self
                .plan
                .climb(structure, Spot::goal_of(level), level.left - 1);
            self.pass(into, self.plan.entry_of(structure, spot))
        }
    }
}
