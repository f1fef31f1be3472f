// Many steps at once, of a walk or from a found mark.
// What they show is a path of transitions, however far it comes.
ghost use Rattle.std.specs.Prelude.{◌≡◌, true, false, length, is_ok, None};
ghost use Rattle.hierarchy.specs.Flat.{initial};
ghost use Rattle.guide.specs.Trees.{Good};
ghost use Rattle.judge.specs.Verdicts.{home_of};
ghost use Rattle.walk.specs.Journeys.{Path, Walked, unless_none, WhereLacking, StepsOn, state_after, OnWalk};
ghost use Rattle.walk.specs.Steps.{guide_for, guide_home, ring_home, state_shown, lacking, Answers, Same, Accepts, OnWay};
ghost use Rattle.walk.specs.Walks.{ShowsRun};

use crate::frame::Frame;
use crate::steps;
use crate::steps::Walk;
use guide::GuideRecord;
use hierarchy::{Hierarchy, Refusal};
use judge::FoundMark;

impl Walk {
    // Makes `n` steps.
    pub(crate) fn step_on<B: Hierarchy>(
        &mut self,
        h: &B,
        guide: &[GuideRecord],
        frames: &mut [Frame],
        n: u64,
    ) -> Result<(), Refusal>
        ensures answer { Answers (unless_none n (lacking (B.Hierarchy.meaning h.now) (length guide.now) (length frames.old))) result }
        ensures unaltered { WhereLacking (lacking (B.Hierarchy.meaning h.now) (length guide.now) (length frames.old)) (Same self.old frames.old self.new frames.new) }
        ensures path { Walked (B.Hierarchy.meaning h.now) n (state_shown (B.Hierarchy.meaning h.now) self.old frames.old) (state_shown (B.Hierarchy.meaning h.now) self.new frames.new) result }
        ensures follows { is_ok result ≡ true → StepsOn (B.Hierarchy.meaning h.now) (guide_for (B.Hierarchy.meaning h.now) guide.now self.old) n self.old frames.old self.new frames.new }
        ensures accepted { Accepts (B.Hierarchy.meaning h.now) guide.now self.old frames.old result }
        ensures home { ring_home self.new ≡ ring_home self.old }
    {
        for _ in 0..n {
            self.step(h, guide, frames)?;
        }
        Ok(())
    }
}

// Starts a walk and makes `n` steps.
pub fn walk_on<B: Hierarchy>(
    found: FoundMark,
    h: &B,
    guide: &[GuideRecord],
    frames: &mut [Frame],
    n: u64,
) -> Result<Walk, Refusal>
    ensures answer { Answers (unless_none n (lacking (B.Hierarchy.meaning h.now) (length guide.now) (length frames.old))) result }
    ensures unaltered { WhereLacking (lacking (B.Hierarchy.meaning h.now) (length guide.now) (length frames.old)) (frames.new ≡ frames.old) }
    ensures path { OnWalk (λ w. Path (B.Hierarchy.meaning h.now) n (initial (B.Hierarchy.meaning h.now) 0) (state_shown (B.Hierarchy.meaning h.now) w frames.new)) result }
    ensures shown { OnWalk (λ w. state_shown (B.Hierarchy.meaning h.now) w frames.new ≡ state_after (B.Hierarchy.meaning h.now) guide.now (home_of found) n) result }
    ensures way { OnWalk (λ w. OnWay (B.Hierarchy.meaning h.now) guide.now n w frames.new) result }
    ensures home { OnWalk (λ w. ring_home w ≡ home_of found) result }
    ensures accepted { Good (B.Hierarchy.meaning h.now) (guide_home (B.Hierarchy.meaning h.now) guide.now (home_of found)) → lacking (B.Hierarchy.meaning h.now) (length guide.now) (length frames.old) ≡ None → is_ok result ≡ true }
    ensures endless { Good (B.Hierarchy.meaning h.now) (guide_home (B.Hierarchy.meaning h.now) guide.now (home_of found)) → (B.Hierarchy.meaning h.now).large ≡ false → ShowsRun (B.Hierarchy.meaning h.now) (guide_home (B.Hierarchy.meaning h.now) guide.now (home_of found)) }
{
    let mut walk = steps::start(found);
    walk.step_on(h, guide, frames, n)?;
    Ok(walk)
}
