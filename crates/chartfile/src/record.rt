// One record of a chart file, as the call that it names.
use monitor::MonitorEdit;
use sheet::Edit;

#[derive(Clone, Copy, PartialEq, Eq, Debug)]
pub enum Record {
    // begin a new chart of so many structures; the monitor is new too
    Begin { structures: usize },
    // an edit of the chart
    Draw { edit: Edit },
    // an edit of the monitor
    Watch { edit: MonitorEdit },
}
