// Charts drawn from a list of edits, judged and walked under any number of monitors.
// What is promised speaks of the sheet of these edits alone: whatever their order and number, and whichever are refused.
ghost use Rattle.std.specs.Prelude.{◌≡◌, true, false, List, map, length, is_some, is_err};
ghost use Rattle.std.specs.Result.{result_err};
ghost use Rattle.hierarchy.specs.Flat.{Reaches};
ghost use Rattle.monitor.specs.Piles.{GoodRun};
ghost use Rattle.monitor.specs.Product.{laid};
ghost use Rattle.monitor.specs.Replay.{made};
ghost use Rattle.monitor.specs.Tables.{automaton_of};
ghost use Rattle.monitor.specs.declared.replay.MonitorEdit.{MonitorEdit};
ghost use Rattle.judge.specs.Known.{Decides};
ghost use Rattle.endless.specs.Judgments.{OnJudgment, WalkIs, WalksOn, pile_lacking};
ghost use Rattle.endless.specs.Drawings.{drawn, drawing_refusal};

use crate::{Judgment, judge_and_walk};
use chart::Chart;
use guide::GuideRecord;
use hierarchy::{Hierarchy, Refusal};
use layer::Pile;
use monitor::Monitor;
use sheet::Edit;
use walk::Frame;

// Draws a chart of so many structures by the edits, lays the monitors over it, the first of them last, judges the pile,
// and where a marked state recurs, starts a walk and makes `n` steps. The clause `made` says the same of the monitors'
// own edits, each list from when its monitor was new.
pub fn judge_drawing(
    structures: usize,
    edits: &[Edit],
    monitors: &[Monitor],
    guide: &mut [GuideRecord],
    frames: &mut [Frame],
    n: u64,
) -> Result<Judgment, Refusal>
    ensures refused { result_err result ≡ drawing_refusal structures edits.now (map automaton_of monitors.now) (length guide.old) (length frames.old) }
    ensures unchanged { is_err result ≡ true → (guide.new ≡ guide.old) × (frames.new ≡ frames.old) }
    ensures reach { OnJudgment (λ j. Decides j.reach (Reaches (laid (map automaton_of monitors.now) (drawn structures edits.now)))) result }
    ensures recur { OnJudgment (λ j. Decides (is_some j.walk) (GoodRun (drawn structures edits.now) (map automaton_of monitors.now))) result }
    ensures made { (lists : List (List MonitorEdit)) → map automaton_of monitors.now ≡ map made lists → OnJudgment (λ j. Decides (is_some j.walk) (GoodRun (drawn structures edits.now) (map made lists))) result }
    ensures idle { OnJudgment (λ j. (is_some j.walk ≡ false → frames.new ≡ frames.old)) result }
    ensures endless { OnJudgment (λ j. WalkIs (WalksOn (laid (map automaton_of monitors.now) (drawn structures edits.now)) guide.new frames.new n) j.walk) result }
{
    let mut chart = Chart::new();
    chart.begin(structures)?;
    chart.replay(edits);
    judge_under(&chart, monitors, guide, frames, n)
}

// Lays the monitors over the hierarchy, the first of them last, judges the pile, and where a marked state recurs, starts
// a walk and makes `n` steps.
pub fn judge_under<'a, B: Hierarchy>(
    base: &'a B,
    monitors: &'a [Monitor],
    guide: &mut [GuideRecord],
    frames: &mut [Frame],
    n: u64,
) -> Result<Judgment, Refusal>
    ensures refused { result_err result ≡ pile_lacking (B.Hierarchy.meaning base.now) (map automaton_of monitors.now) (length guide.old) (length frames.old) }
    ensures unchanged { is_err result ≡ true → (guide.new ≡ guide.old) × (frames.new ≡ frames.old) }
    ensures reach { OnJudgment (λ j. Decides j.reach (Reaches (laid (map automaton_of monitors.now) (B.Hierarchy.meaning base.now)))) result }
    ensures recur { OnJudgment (λ j. Decides (is_some j.walk) (GoodRun (B.Hierarchy.meaning base.now) (map automaton_of monitors.now))) result }
    ensures idle { OnJudgment (λ j. (is_some j.walk ≡ false → frames.new ≡ frames.old)) result }
    ensures endless { OnJudgment (λ j. WalkIs (WalksOn (laid (map automaton_of monitors.now) (B.Hierarchy.meaning base.now)) guide.new frames.new n) j.walk) result }
{
    let pile = Pile::new(base, monitors);
    judge_and_walk(&pile, guide, frames, n)
}
