// The report: what is printed of a chart, bare or under one monitor, as bytes in lent memory.
// And the bytes that are printed of a refusal.
#![tactic(auto)]

ghost use Rattle.std.specs.Prelude.{◌≡◌, true, length, is_err};
ghost use Rattle.std.specs.Result.{result_err};
ghost use Rattle.sheet.specs.Sheet.{meaning_of};
ghost use Rattle.chart.specs.Charts.{sheet};
ghost use Rattle.monitor.specs.Product.{product};
ghost use Rattle.monitor.specs.Tables.{automaton_of};
ghost use Rattle.report.specs.Judged.{judged};
ghost use Rattle.report.specs.Report.{report_refusal, Prints};

mod file;
mod judged;
mod lines;
mod refused;
mod states;
mod text;

use crate::judged::report_on;
use chart::Chart;
pub use file::report_file;
use guide::GuideRecord;
use hierarchy::Refusal;
use layer::Layer;
use monitor::Monitor;
pub use refused::{fault_text, refusal_text};
pub use text::OUTPUT;
use walk::Frame;

// Reports on a chart: writes all that is printed to the front of the output, and answers how many bytes that is. It
// needs (S + 1) × P guide records, S frames and 2,048 bytes of output. Guide records and frames are free afterwards.
#[tactic(auto, using(crate::proofs::Bounds::chart_boxes))]
pub fn report_chart(
    chart: &Chart,
    guide: &mut [GuideRecord],
    frames: &mut [Frame],
    output: &mut [u8],
) -> Result<usize, Refusal>
    ensures refused { result_err result ≡ report_refusal (meaning_of (sheet chart.now)) (length guide.old) (length frames.old) (length output.old) }
    ensures unaltered { is_err result ≡ true → (output.new ≡ output.old) × (guide.new ≡ guide.old) × (frames.new ≡ frames.old) }
    ensures printed { Prints (meaning_of (sheet chart.now)) output.old output.new result }
{
    report_on(chart, guide, frames, output)
}

// Reports on a chart with a monitor laid over it; sizes and states are those of the layer.
#[tactic(auto, using(crate::proofs::Bounds::layer_fits, crate::proofs::Bounds::layer_boxes))]
pub fn report_monitored(
    chart: &Chart,
    monitor: &Monitor,
    guide: &mut [GuideRecord],
    frames: &mut [Frame],
    output: &mut [u8],
) -> Result<usize, Refusal>
    ensures refused { result_err result ≡ report_refusal (product (meaning_of (sheet chart.now)) (automaton_of monitor.now)) (length guide.old) (length frames.old) (length output.old) }
    ensures unaltered { is_err result ≡ true → (output.new ≡ output.old) × (guide.new ≡ guide.old) × (frames.new ≡ frames.old) }
    ensures printed { Prints (product (meaning_of (sheet chart.now)) (automaton_of monitor.now)) output.old output.new result }
{
    let layer = Layer::new(chart, monitor);
    report_on(&layer, guide, frames, output)
}

// Reports on a chart, under a monitor if one is given.
pub fn report(
    chart: &Chart,
    monitor: Option<&Monitor>,
    guide: &mut [GuideRecord],
    frames: &mut [Frame],
    output: &mut [u8],
) -> Result<usize, Refusal>
    ensures refused { result_err result ≡ report_refusal (judged chart.now monitor.entry) (length guide.old) (length frames.old) (length output.old) }
    ensures unaltered { is_err result ≡ true → (output.new ≡ output.old) × (guide.new ≡ guide.old) × (frames.new ≡ frames.old) }
    ensures printed { Prints (judged chart.now monitor.entry) output.old output.new result }
{
    match monitor {
        None => report_chart(chart, guide, frames, output),
        Some(monitor) => report_monitored(chart, monitor, guide, frames, output),
    }
}
