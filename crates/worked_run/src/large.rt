// Wheels and a chart with far too many flat states to be unfolded.
// Each is judged by one search of each structure.
use crate::cycle::tell_cycle;
use crate::tell::{tell, tell_chart, tell_made};
use chart::Chart;
use guide::GuideRecord;
use hierarchy::Refusal;
use std::io;
use wheel::Wheel;

// In structure `i` the entry leads to box 1, box 1 to box 2, and box 2 to the exit 3; both boxes name the structure below.
fn nest(
    chart: &mut Chart,
    i: usize,
    inner: usize,
    inner_exit: usize,
    look: u8,
) -> Result<(), Refusal> {
    chart.add_box(i, inner)?;
    chart.add_box(i, inner)?;
    chart.node(i, look)?;
    chart.exit(i, 3)?;
    chart.edge(i, 0, 1)?;
    chart.leave(i, 1, inner_exit, 2)?;
    chart.leave(i, 2, inner_exit, 3)
}

// 32 structures, each but the first shared twice by the one above; the end of structure 0 is marked and leads to its
// entry. More than two thousand million flat states form one cycle.
fn nested() -> Result<Chart, Refusal> {
    let mut chart = Chart::new();
    chart.begin(32)?;
    chart.node(31, 0)?;
    chart.exit(31, 1)?;
    chart.edge(31, 0, 1)?;
    nest(&mut chart, 30, 31, 1, 0)?;
    for i in (1..30).rev() {
        nest(&mut chart, i, i + 1, 3, 0)?;
    }
    nest(&mut chart, 0, 1, 3, 128)?;
    chart.edge(0, 3, 0)?;
    Ok(chart)
}

fn tell_wheel(
    rt: &HostRuntime,
    name: &str,
    sizes: &[usize],
    guide: &mut [GuideRecord],
) -> io::Result<()> {
    tell_made(
        rt,
        name,
        Wheel::new(sizes),
        |wheel| tell(rt, name, &wheel, guide),
    )
}

// The flat form of a wheel is one cycle, here short enough to be walked.
fn tell_day(rt: &HostRuntime, guide: &mut [GuideRecord]) -> io::Result<()> {
    let name = "wheel 24, 60, 60";
    tell_made(rt, name, Wheel::new(&[24, 60, 60]), |wheel| {
        tell(rt, name, &wheel, guide)?;
        tell_cycle(rt, name, &wheel, guide)
    })
}

pub fn tell_large(rt: &HostRuntime, guide: &mut [GuideRecord]) -> io::Result<()> {
    tell_day(rt, guide)?;
    tell_wheel(rt, "largest wheel", &[1022; 16], guide)?;
    tell_wheel(rt, "one item more", &[1023], guide)?;
    tell_chart(rt, "nested chart", nested(), guide)
}
