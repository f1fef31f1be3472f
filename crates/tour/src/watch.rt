// The requirement, as two monitors that accept the runs which are forbidden together.
use crate::draw::{tell_refusal, tell_size};
use chart::Chart;
use hierarchy::Hierarchy;
use layer::Layer;
use monitor::{Monitor, MonitorEdit};
use std::io;

// Makes an edit, and tells why if it is refused.
fn edit(rt: &HostRuntime, monitor: &mut Monitor, edit: MonitorEdit) -> io::Result<()> {
    monitor
        .apply(edit)
        .or_else(|refusal| tell_refusal(rt, refusal))
}

fn step(q: usize, care: u8, value: u8, r: usize) -> MonitorEdit {
    MonitorEdit::Step { q, care, value, r }
}

// A new monitor with these edits made.
fn built(rt: &HostRuntime, edits: &[MonitorEdit]) -> io::Result<Monitor> {
    let mut monitor = Monitor::new();
    for e in edits {
        edit(rt, &mut monitor, *e)?;
    }
    Ok(monitor)
}

// From some point on, letter 2 (B served) is not read: state 0 waits, state 1 reads letters without bit 1.
pub fn starves_b(rt: &HostRuntime) -> io::Result<Monitor> {
    println!(rt;
        "A monitor was built that accepts the runs in which B is served no more from some point on."
    )?;
    let edits = [
        MonitorEdit::State,
        step(0, 0, 0, 0),
        step(0, 0, 0, 1),
        step(1, 2, 0, 1),
        MonitorEdit::Accept { q: 1 },
    ];
    let mut monitor = built(rt, &edits)?;
    println!(rt; "A step on letters whose bit 2 is set though it is not looked at was tried:")?;
    edit(rt, &mut monitor, step(1, 2, 4, 1))?;
    Ok(monitor)
}

// Letter 1 (A served) is read without end: state 1 is entered by each odd letter.
pub fn serves_a(rt: &HostRuntime) -> io::Result<Monitor> {
    println!(rt;
        "A second monitor was built that accepts the runs in which A is served without end."
    )?;
    let edits = [
        MonitorEdit::State,
        step(0, 1, 1, 1),
        step(0, 1, 0, 0),
        step(1, 1, 1, 1),
        step(1, 1, 0, 0),
        MonitorEdit::Accept { q: 1 },
    ];
    built(rt, &edits)
}

// What laying one monitor makes of the size.
pub fn lay(rt: &HostRuntime, chart: &Chart, monitor: &Monitor) -> io::Result<()> {
    println!(rt; "The first monitor was laid over the chart:")?;
    tell_size(rt, Layer::new(chart, monitor).size())
}
