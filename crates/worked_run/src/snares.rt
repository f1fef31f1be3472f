// Charts on which a judge that makes a common error answers something else.
// Each error is told where its chart is made.
use crate::tell::{Watched, tell_chart, tell_under};
use chart::Chart;
use guide::GuideRecord;
use hierarchy::Refusal;
use monitor::Monitor;
use std::io;

// Boxes 1 and 2 share structure 1, whose entry leads to its marked exit 1; the entry leads to box 1, and box 1 to box 2.
// If an exit went on in the other box's context, box 2 would lead to box 2 and the pair recur.
fn pair() -> Result<Chart, Refusal> {
    let mut chart = Chart::new();
    chart.begin(2)?;
    chart.add_box(0, 1)?;
    chart.add_box(0, 1)?;
    chart.node(1, 128)?;
    chart.exit(1, 1)?;
    chart.edge(1, 0, 1)?;
    chart.edge(0, 0, 1)?;
    chart.leave(0, 1, 1, 2)?;
    Ok(chart)
}

// The same pair, but box 2 leads back to box 1.
fn returning_pair() -> Result<Chart, Refusal> {
    let mut chart = pair()?;
    chart.leave(0, 2, 1, 1)?;
    Ok(chart)
}

// The inner entry reaches exit 1 alone, and box 1 leads on by exit 2 alone, to a marked node that turns.
// If a box were passed by an exit that its entry does not reach, the mark would be reached.
fn wrong_exit() -> Result<Chart, Refusal> {
    let mut chart = Chart::new();
    chart.begin(2)?;
    chart.add_box(0, 1)?;
    chart.node(0, 128)?;
    chart.node(1, 0)?;
    chart.node(1, 0)?;
    chart.exit(1, 1)?;
    chart.exit(1, 2)?;
    chart.edge(1, 0, 1)?;
    chart.edge(0, 0, 1)?;
    chart.edge(0, 2, 2)?;
    chart.leave(0, 1, 2, 2)?;
    Ok(chart)
}

// The inner entry leads to the exit 1, and to the marked node 2, which leads nowhere; box 1 leads by the exit to itself.
// If each mark inside a box counted on a round through it, the chart would recur.
fn missed_mark() -> Result<Chart, Refusal> {
    let mut chart = Chart::new();
    chart.begin(2)?;
    chart.add_box(0, 1)?;
    chart.node(1, 0)?;
    chart.node(1, 128)?;
    chart.exit(1, 1)?;
    chart.edge(1, 0, 1)?;
    chart.edge(1, 0, 2)?;
    chart.edge(0, 0, 1)?;
    chart.leave(0, 1, 1, 1)?;
    Ok(chart)
}

// The entry has letter 0, and leads to a marked node of letter 1, which turns; the monitor reads one even letter, and
// odd ones from then on. If it read the letter of the node entered, it would accept nothing.
fn letter_left() -> Result<Watched, Refusal> {
    let mut chart = Chart::new();
    chart.begin(1)?;
    chart.node(0, 129)?;
    chart.edge(0, 0, 1)?;
    chart.edge(0, 1, 1)?;
    let mut monitor = Monitor::new();
    monitor.state()?;
    monitor.step(0, 1, 0, 1)?;
    monitor.step(1, 1, 1, 1)?;
    monitor.accept(1)?;
    Ok(Watched { chart, monitor })
}

// The marked entry and node 1, of letter 1, lead to one another; the monitor is accepting behind an even letter, so at
// node 1. If mark and acceptance were wanted in the same state, the chart would not recur.
fn in_turn() -> Result<Watched, Refusal> {
    let mut chart = Chart::new();
    chart.begin(1)?;
    chart.look(0, 0, 128)?;
    chart.node(0, 1)?;
    chart.edge(0, 0, 1)?;
    chart.edge(0, 1, 0)?;
    let mut monitor = Monitor::new();
    monitor.state()?;
    monitor.step(0, 1, 0, 1)?;
    monitor.step(1, 1, 1, 0)?;
    monitor.accept(1)?;
    Ok(Watched { chart, monitor })
}

pub fn tell_snares(rt: &HostRuntime, guide: &mut [GuideRecord]) -> io::Result<()> {
    tell_chart(rt, "pair", pair(), guide)?;
    tell_chart(rt, "pair, returning", returning_pair(), guide)?;
    tell_chart(rt, "exit that is not reached", wrong_exit(), guide)?;
    tell_chart(rt, "mark that the round misses", missed_mark(), guide)?;
    tell_under(rt, "letter of the node left", letter_left(), guide)?;
    tell_under(rt, "mark and acceptance in turn", in_turn(), guide)
}
