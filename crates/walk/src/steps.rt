// A walk, which shows an endless run one transition at a time.
// It is a value of its own: started once, moved by steps, never copied.
ghost use Rattle.std.specs.Prelude.{◌≡◌, true, false, List, length, is_ok};
ghost use Rattle.hierarchy.specs.Flat.{Step, initial};
ghost use Rattle.hierarchy.specs.Meaning.{Meaning};
ghost use Rattle.guide.specs.Trees.{Guide};
ghost use Rattle.judge.specs.Verdicts.{home_of};
ghost use Rattle.walk.specs.Memory.{guide_by};
ghost use Rattle.walk.specs.Standing.{stack_of};
ghost use Rattle.walk.specs.Steps.{guide_for, levels, state_shown, lacking, size_or, Answers, Same, Follows, Accepts, ring_home};
ghost use Rattle.walk.specs.Onward.{StartsRun, Onward};
ghost use Rattle.walk.specs.Walks.{walk};

pub mod journey;
mod show;

use crate::frame::Frame;
use crate::level::Guided;
use crate::read::Plan;
use crate::stand::Stand;
use guide::GuideRecord;
use hierarchy::{Hierarchy, Refusal, Size};
use judge::FoundMark;

#[derive(Drop)]
pub struct Walk {
    // the structure that has the ring
    home: usize,
    // where it stands; before its first step, at the initial state
    stand: Option<Stand>,
}

// A walk at the initial state. It spends the found mark: of each there is one walk.
pub fn start(found: FoundMark) -> Walk
    ensures initial { (m : Meaning) (fs : List Frame) → state_shown m result fs ≡ initial m 0 }
    ensures levels { (m : Meaning) (g : Guide) (fs : List Frame) → levels m g result fs ≡ walk m g 0 }
    ensures home { ring_home result ≡ home_of found }
    ensures run { StartsRun (home_of found) result }
{
    Walk {
        home: found.spend(),
        stand: None,
    }
}

// The size of the hierarchy, if it can be walked with so many guide records and frames. A judge asks for the same records:
// written out in both, since of any size the product could overflow, and both know its bounds.
pub fn walkable<B: Hierarchy>(h: &B, records: usize, frames: usize) -> Result<Size, Refusal>
    ensures { result ≡ size_or (B.Hierarchy.meaning h.now) (lacking (B.Hierarchy.meaning h.now) records frames) }
{
    let size = h.size().ok_or(Refusal::TooLarge)?;
    if records < (size.structures + 1) * size.places || frames < size.structures {
        return Err(Refusal::TooLittleMemory);
    }
    Ok(size)
}

impl Walk {
    // Where the walk stands; before its first step, on the way from the entry to the ring.
    fn standing<B: Hierarchy>(&self, guided: &Guided<B>) -> Stand
        ensures { (fs : List Frame) → stack_of fs result ≡ levels (B.Hierarchy.meaning guided.now.h.now) (guide_by guided.now.plan) self.now fs }
    {
        // by cases: of a value that a closure makes nothing would be known here
        match self.stand {
            Some(stand) => stand,
            None => Stand {
                depth: 0,
                last: guided.lead(0),
            },
        }
    }

    // Moves the walk by one transition. It needs (S + 1) × P guide records and S frames.
    pub fn step<B: Hierarchy>(
        &mut self,
        h: &B,
        guide: &[GuideRecord],
        frames: &mut [Frame],
    ) -> Result<(), Refusal>
        ensures answer { Answers (lacking (B.Hierarchy.meaning h.now) (length guide.now) (length frames.old)) result }
        ensures unaltered { is_ok result ≡ false → Same self.old frames.old self.new frames.new }
        ensures transition { is_ok result ≡ true → Step (B.Hierarchy.meaning h.now) 0 (state_shown (B.Hierarchy.meaning h.now) self.old frames.old) (state_shown (B.Hierarchy.meaning h.now) self.new frames.new) }
        ensures follows { is_ok result ≡ true → Follows (B.Hierarchy.meaning h.now) (guide_for (B.Hierarchy.meaning h.now) guide.now self.old) self.old frames.old self.new frames.new }
        ensures accepted { Accepts (B.Hierarchy.meaning h.now) guide.now self.old frames.old result }
        ensures home { self.new.home ≡ self.old.home }
        ensures onward { Onward (B.Hierarchy.meaning h.now) guide.now self.old frames.old result self.new frames.new }
    {
        let size = walkable(h, guide.len(), frames.len())?;
        let plan = Plan {
            guide,
            size,
            home: self.home,
        };
        let guided = Guided { h, plan };
        let stand = self.standing(&guided);
        let next = guided.moved(frames, stand).ok_or(Refusal::NoTransition)?;
        self.stand = Some(next);
        Ok(())
    }
}
