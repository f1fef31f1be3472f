// The report of any hierarchy whose states have few boxes.
ghost use Rattle.std.specs.Prelude.{◌≡◌, true, false, length, is_err};
ghost use Rattle.std.specs.Result.{result_err};
ghost use Rattle.report.specs.Report.{report_refusal, Prints, FewBoxes};

use crate::lines::push_head;
use crate::states::push_states;
use crate::text::{OUTPUT, ReportText, put_front};
use guide::GuideRecord;
use hierarchy::{Hierarchy, Refusal};
use judge::{Verdict, judge};
use walk::{Frame, walkable};

// Judges a hierarchy and writes the report of it.
pub(crate) fn report_on<B: Hierarchy>(
    h: &B,
    guide: &mut [GuideRecord],
    frames: &mut [Frame],
    output: &mut [u8],
) -> Result<usize, Refusal>
    requires fits { (B.Hierarchy.meaning h.now).large ≡ false }
    requires few { FewBoxes (B.Hierarchy.meaning h.now) }
    ensures refused { result_err result ≡ report_refusal (B.Hierarchy.meaning h.now) (length guide.old) (length frames.old) (length output.old) }
    ensures unaltered { is_err result ≡ true → (output.new ≡ output.old) × (guide.new ≡ guide.old) × (frames.new ≡ frames.old) }
    ensures printed { Prints (B.Hierarchy.meaning h.now) output.old output.new result }
{
    if output.len() < OUTPUT {
        return Err(Refusal::TooLittleMemory);
    }
    let size = walkable(h, guide.len(), frames.len())?;
    let Verdict { reach, recur } = judge(h, guide)?;
    let mut text = ReportText::new();
    push_head(&mut text, size, reach, recur.is_some());
    if let Some(found) = recur {
        push_states(&mut text, h, guide, frames, found)?;
    }
    Ok(put_front(&text, output))
}
