// The worked charts under monitors, and how large a pile of two may be.
// The guide memory does not suffice for the largest pile: its judgment is refused, though the pile is not too large.
use crate::charts::{full, ring};
use crate::tell::{Watched, tell_under, tell_under_two};
use chart::Chart;
use guide::GuideRecord;
use hierarchy::Refusal;
use monitor::Monitor;
use std::io;

// Accepting whenever an odd letter was left.
fn odd_often() -> Result<Monitor, Refusal> {
    let mut monitor = Monitor::new();
    monitor.state()?;
    monitor.step(0, 1, 1, 1)?;
    monitor.step(0, 1, 0, 0)?;
    monitor.step(1, 1, 1, 1)?;
    monitor.step(1, 1, 0, 0)?;
    monitor.accept(1)?;
    Ok(monitor)
}

// Accepting from some letter on, after which no letter is odd.
fn odd_no_more() -> Result<Monitor, Refusal> {
    let mut monitor = Monitor::new();
    monitor.state()?;
    monitor.step(0, 0, 0, 0)?;
    monitor.step(0, 0, 0, 1)?;
    monitor.step(1, 1, 0, 1)?;
    monitor.accept(1)?;
    Ok(monitor)
}

fn four_states() -> Result<Monitor, Refusal> {
    let mut monitor = Monitor::new();
    monitor.state()?;
    monitor.state()?;
    monitor.state()?;
    Ok(monitor)
}

fn watched(
    chart: Result<Chart, Refusal>,
    monitor: Result<Monitor, Refusal>,
) -> Result<Watched, Refusal> {
    Ok(Watched {
        chart: chart?,
        monitor: monitor?,
    })
}

pub fn tell_monitored(rt: &HostRuntime, guide: &mut [GuideRecord]) -> io::Result<()> {
    let often = watched(ring(), odd_often());
    let no_more = watched(ring(), odd_no_more());
    let largest = watched(full(16), four_states());
    let one_more = watched(full(17), four_states());
    tell_under(rt, "ring, odd often", often, guide)?;
    tell_under(rt, "ring, odd no more", no_more, guide)?;
    tell_under_two(rt, "largest pile", largest, guide)?;
    tell_under_two(rt, "one structure more", one_more, guide)
}
