// The judge: whether a marked state is reachable, and whether one can be met without end, for every hierarchy.
// It searches each structure by itself, a few times, in lent memory, and never unfolds the hierarchy.
#![tactic(auto)]

ghost use Rattle.std.specs.Prelude.{◌≡◌, true, length, is_some, is_err};
ghost use Rattle.std.specs.Result.{result_err};
ghost use Rattle.hierarchy.specs.Flat.{Reaches, Recurs};
ghost use Rattle.guide.specs.Layout.{look};
ghost use Rattle.judge.specs.Rows.{AllRows};
ghost use Rattle.judge.specs.Known.{AllKnown, Decides};
ghost use Rattle.judge.specs.Piles.{JudgedAsPile};
ghost use Rattle.judge.specs.Verdicts.{judge_refusal, home_of, OnVerdict, Guides, Finds};

mod judged;
mod known;
mod nested;
mod ring;
mod rows;
mod spread;
mod table;

use crate::judged::Judged;
use guide::GuideRecord;
use hierarchy::{Hierarchy, Refusal, Size};

// A mark that can be met without end. Only a judgment gives one, and a walk along its guide spends it.
#[derive(Drop)]
pub struct FoundMark {
    home: usize,
}

impl FoundMark {
    // The structure in which the walk goes round and round.
    pub fn spend(self) -> usize
        ensures { result ≡ home_of self }
    {
        self.home
    }
}

// What a judgment says of the flat form of a hierarchy.
#[derive(Drop)]
pub struct Verdict {
    // whether a marked state is reachable
    pub reach: bool,
    // whether a reachable marked state can be reached from itself
    pub recur: Option<FoundMark>,
}

impl<'a, B: Hierarchy> Judged<'a, B> {
    // A mark that can be met without end, if there is one; the guide then leads to it.
    fn find_ring(&self, guide: &mut [GuideRecord]) -> Option<FoundMark>
        requires rows { AllRows (B.Hierarchy.meaning self.now.h.now) guide.old self.now.places self.now.structures }
        requires knows { AllKnown (B.Hierarchy.meaning self.now.h.now) (look guide.old self.now.places) }
        ensures { Finds (B.Hierarchy.meaning self.now.h.now) guide.new result }
    {
        let ring = self.ring_any(guide)?;
        self.point(guide, ring);
        Some(FoundMark { home: ring.home })
    }
}

// Judges the hierarchy, in a guide of at least (structures + 1) × places records:
//
//     let verdict = judge(&chart, guide)?;
//     if let Some(mark) = verdict.recur {
//         // a walk spends the mark
//     }
//
// Too large a hierarchy is refused before too short a guide, and a refusal leaves the guide as it was.
pub fn judge<B: Hierarchy>(h: &B, guide: &mut [GuideRecord]) -> Result<Verdict, Refusal>
    ensures refused { result_err result ≡ judge_refusal (B.Hierarchy.meaning h.now) (length guide.old) }
    ensures unchanged { is_err result ≡ true → guide.new ≡ guide.old }
    ensures reach { OnVerdict (λ v. Decides v.reach (Reaches (B.Hierarchy.meaning h.now))) result }
    ensures recur { OnVerdict (λ v. Decides (is_some v.recur) (Recurs (B.Hierarchy.meaning h.now))) result }
    ensures piles { JudgedAsPile (B.Hierarchy.meaning h.now) (length guide.old) result }
    ensures guides { OnVerdict (λ v. Guides (B.Hierarchy.meaning h.now) guide.new v.recur) result }
{
    let Size { structures, places } = h.size().ok_or(Refusal::TooLarge)?;
    if guide.len() < (structures + 1) * places {
        return Err(Refusal::TooLittleMemory);
    }
    let judged = Judged {
        h,
        structures,
        places,
    };
    judged.fill(guide);
    judged.know_all(guide);
    let reach = judged.marked_any(guide);
    let recur = judged.find_ring(guide);
    Ok(Verdict { reach, recur })
}
