// What is printed for a chart file, from its bytes to the last line.
// The chart is judged under the monitor if the file has a record of one.
ghost use Rattle.std.specs.Prelude.{◌≡◌, ◌≤◌, true, length, is_err, MatchResult};
ghost use Rattle.std.specs.Result.{result_err};
ghost use Rattle.report.specs.Judged.{judged};
ghost use Rattle.report.specs.FileReports.{file_refusal, PrintsFile, TellsJudged};

use crate::refused::{fault_text, refusal_text};
use crate::report;
use crate::text::OUTPUT;
use chart::Chart;
use chartfile::load;
use guide::GuideRecord;
use hierarchy::Refusal;
use monitor::Monitor;
use walk::Frame;

// Loads a chart file and writes all that is printed for it to the front of the output, and answers how many bytes that
// is: a report, or the line of a refusal or a fault. It needs 2,048 bytes of output. Guide records and frames are free
// afterwards.
pub fn report_file(
    input: &[u8],
    guide: &mut [GuideRecord],
    frames: &mut [Frame],
    output: &mut [u8],
) -> Result<usize, Refusal>
    ensures refused { result_err result ≡ file_refusal (length output.old) }
    ensures unaltered { is_err result ≡ true → (output.new ≡ output.old) × (guide.new ≡ guide.old) × (frames.new ≡ frames.old) }
    ensures printed { PrintsFile input.now (length guide.old) (length frames.old) output.old output.new result }
{
    if output.len() < OUTPUT {
        return Err(Refusal::TooLittleMemory);
    }
    let mut chart = Chart::new();
    let mut monitor = Monitor::new();
    match load(input, &mut chart, &mut monitor) {
        Ok(watched) => tell(&chart, watched.then_some(&monitor), guide, frames, output),
        Err(fault) => fault_text(fault, output),
    }
}

// Writes the report of a chart, under a monitor if one is given, or the line of why there is none.
fn tell(
    chart: &Chart,
    monitor: Option<&Monitor>,
    guide: &mut [GuideRecord],
    frames: &mut [Frame],
    output: &mut [u8],
) -> Result<usize, Refusal>
    requires { 2048 ≤ length output.old }
    ensures { MatchResult result (λ n. TellsJudged (judged chart.now monitor.entry) (length guide.old) (length frames.old) output.old output.new n) (λ _. ⊥) }
{
    // in place of `or_else`: what a closure leaves in memory that it borrowed is not known afterwards
    match report(chart, monitor, guide, frames, output) {
        Err(refusal) => refusal_text(refusal, output),
        reported => reported,
    }
}
