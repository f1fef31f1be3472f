// Making the call that a record names.
ghost use Rattle.std.specs.Prelude.{◌≡◌, false, is_ok};
ghost use Rattle.chartfile.specs.Records.{performed};
ghost use Rattle.chartfile.specs.Files.{drawing};

use crate::record::Record;
use chart::Chart;
use hierarchy::Refusal;
use monitor::Monitor;

// A refused call alters nothing.
pub(crate) fn perform(
    record: Record,
    chart: &mut Chart,
    monitor: &mut Monitor,
) -> Result<(), Refusal>
    ensures answer { result ≡ (performed (drawing chart.old monitor.old) «record»).answer }
    ensures after { drawing chart.new monitor.new ≡ (performed (drawing chart.old monitor.old) «record»).drawing }
    ensures unchanged { is_ok result ≡ false → (chart.new ≡ chart.old) × (monitor.new ≡ monitor.old) }
{
    match record {
        Record::Begin { structures } => {
            chart.begin(structures)?;
            *monitor = Monitor::new();
        }
        Record::Draw { edit } => {
            chart.apply(edit)?;
        }
        Record::Watch { edit } => monitor.apply(edit)?,
    }
    Ok(())
}
