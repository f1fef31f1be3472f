// The first six states of a walk, a line each.
ghost use Rattle.std.specs.Prelude.{◌≡◌, ◌++◌, length, None, MatchResult};
ghost use Rattle.guide.specs.Trees.{Good};
ghost use Rattle.judge.specs.Verdicts.{home_of};
ghost use Rattle.walk.specs.Steps.{lacking, guide_home};
ghost use Rattle.report.specs.Writing.{Room};
ghost use Rattle.report.specs.Text.{walk_state, run_lines};

use crate::lines::push_state;
use crate::text::ReportText;
use guide::GuideRecord;
use hierarchy::{Hierarchy, Refusal};
use judge::FoundMark;
use walk::{Frame, start};

// From state 0 to state 5.
const STEPS: usize = 5;

// The states 0 to 5 of the walk that the found mark starts. By a good guide no step is refused.
pub(crate) fn push_states<B: Hierarchy>(
    text: &mut ReportText,
    h: &B,
    guide: &[GuideRecord],
    frames: &mut [Frame],
    found: FoundMark,
) -> Result<(), Refusal>
    requires good { Good (B.Hierarchy.meaning h.now) (guide_home (B.Hierarchy.meaning h.now) guide.now (home_of found)) }
    requires memory { lacking (B.Hierarchy.meaning h.now) (length guide.now) (length frames.old) ≡ None }
    requires room { Room 2048 text.old.bytes (run_lines (B.Hierarchy.meaning h.now) (walk_state (B.Hierarchy.meaning h.now) guide.now (home_of found)) 6) }
    ensures { MatchResult result (λ _. text.new.bytes ≡ text.old.bytes ++ run_lines (B.Hierarchy.meaning h.now) (walk_state (B.Hierarchy.meaning h.now) guide.now (home_of found)) 6) (λ _. ⊥) }
{
    let mut walk = start(found);
    push_state(text, &walk, h, frames);
    for _ in 0..STEPS {
        walk.step(h, guide, frames)?;
        push_state(text, &walk, h, frames);
    }
    Ok(())
}
