// One record read and its call made, and the fault where that is refused.
ghost use Rattle.std.specs.Prelude.{◌≡◌, ◌<◌, false, length, is_ok, MatchResult, nat_eq};
ghost use Rattle.chartfile.specs.Records.{is_begin_lem, is_watch_lem};
ghost use Rattle.chartfile.specs.Files.{drawing};
ghost use Rattle.chartfile.specs.Steps.{Took, Stopped, Faulty};

use crate::Fault;
use crate::perform::perform;
use crate::read::take;
use crate::record::Record;
use chart::Chart;
use hierarchy::Refusal;
use monitor::Monitor;

// Whether the record is a monitor's, and the bytes behind it. Chart and monitor stay two parameters, as `load` is lent
// them apart. That there are bytes is asked by each function down to `take`, and by no type: `load` has just looked.
pub(crate) fn read_at<'a>(
    bytes: &'a [u8],
    record: usize,
    offset: usize,
    chart: &mut Chart,
    monitor: &mut Monitor,
) -> Result<(bool, &'a [u8]), Fault>
    requires { 0 < length bytes.now }
    ensures read { MatchResult result (λ v. Took (nat_eq «record» 1) (drawing chart.old monitor.old) (drawing chart.new monitor.new) bytes.now v.0 v.1.now) (λ f. Faulty (nat_eq «record» 1) (drawing chart.old monitor.old) (drawing chart.new monitor.new) bytes.now «record» offset f) }
    ensures unchanged { is_ok result ≡ false → (chart.new ≡ chart.old) × (monitor.new ≡ monitor.old) }
{
    read_one(bytes, record == 1, chart, monitor).map_err(|refusal| Fault {
        refusal,
        record,
        offset,
    })
}

fn read_one<'a>(
    bytes: &'a [u8],
    first: bool,
    chart: &mut Chart,
    monitor: &mut Monitor,
) -> Result<(bool, &'a [u8]), Refusal>
    requires { 0 < length bytes.now }
    ensures read { MatchResult result (λ v. Took first (drawing chart.old monitor.old) (drawing chart.new monitor.new) bytes.now v.0 v.1.now) (λ e. Stopped first (drawing chart.old monitor.old) (drawing chart.new monitor.new) bytes.now e) }
    ensures unchanged { is_ok result ≡ false → (chart.new ≡ chart.old) × (monitor.new ≡ monitor.old) }
{
    let (record, rest) = take(bytes)?;
    if record.is_begin() != first {
        return Err(Refusal::BeginMisplaced);
    }
    perform(record, chart, monitor)?;
    Ok((record.is_watch(), rest))
}

impl Record {
    fn is_begin(&self) -> bool
        ensures { result ≡ is_begin_lem self.now }
    {
        matches!(self, Record::Begin { .. })
    }

    fn is_watch(&self) -> bool
        ensures { result ≡ is_watch_lem self.now }
    {
        matches!(self, Record::Watch { .. })
    }
}
