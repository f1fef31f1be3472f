// Judging and walking in one call: what is promised about endless runs, whole, for every hierarchy and every pile.
// A yes to recur comes with a walk that shows such a run, step by step, and is never refused.
#![tactic(auto)]

ghost use Rattle.std.specs.Prelude.{◌≡◌, true, false, length, is_some, is_err};
ghost use Rattle.std.specs.Result.{result_err};
ghost use Rattle.hierarchy.specs.Flat.{Reaches, Recurs};
ghost use Rattle.judge.specs.Known.{Decides};
ghost use Rattle.walk.specs.Steps.{lacking};
ghost use Rattle.endless.specs.Judgments.{OnJudgment, WalkIs, WalksOn, JudgedPiles};

mod drawn;

pub use drawn::{judge_drawing, judge_under};
use guide::GuideRecord;
use hierarchy::{Hierarchy, Refusal};
use judge::{Verdict, judge};
use walk::{Frame, Walk, walk_on, walkable};

// What a judgment says, with a walk where a marked state recurs. A type of its own: a verdict with a walk in the place of
// the found mark, which is spent.
#[derive(Drop)]
pub struct Judgment {
    // whether a marked state is reachable
    pub reach: bool,
    // a walk along an endless run that is marked without end, if there is such a run
    pub walk: Option<Walk>,
}

// Judges the hierarchy, and where a marked state recurs, starts a walk and makes `n` steps.
// It needs (S + 1) × P guide records and S frames, also where there is no walk to make.
// Guide and frames are lent apart: a judge writes the one, and a walk reads it while it writes the other.
pub fn judge_and_walk<B: Hierarchy>(
    h: &B,
    guide: &mut [GuideRecord],
    frames: &mut [Frame],
    n: u64,
) -> Result<Judgment, Refusal>
    ensures refused { result_err result ≡ lacking (B.Hierarchy.meaning h.now) (length guide.old) (length frames.old) }
    ensures unchanged { is_err result ≡ true → (guide.new ≡ guide.old) × (frames.new ≡ frames.old) }
    ensures reach { OnJudgment (λ j. Decides j.reach (Reaches (B.Hierarchy.meaning h.now))) result }
    ensures recur { OnJudgment (λ j. Decides (is_some j.walk) (Recurs (B.Hierarchy.meaning h.now))) result }
    ensures piles { JudgedPiles (B.Hierarchy.meaning h.now) (length guide.old) (length frames.old) result }
    ensures idle { OnJudgment (λ j. (is_some j.walk ≡ false → frames.new ≡ frames.old)) result }
    ensures endless { OnJudgment (λ j. WalkIs (WalksOn (B.Hierarchy.meaning h.now) guide.new frames.new n) j.walk) result }
{
    walkable(h, guide.len(), frames.len())?;
    let Verdict { reach, recur } = judge(h, guide)?;
    // by cases: after a closure nothing would be known of the frames that it borrows
    let walk = match recur {
        Some(found) => Some(walk_on(found, h, guide, frames, n)?),
        None => None,
    };
    Ok(Judgment { reach, walk })
}
