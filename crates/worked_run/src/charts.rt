// The worked charts without monitors, and the edits that are refused.
// A look of 128 is a mark without a letter.
use crate::tell::tell_chart;
use chart::Chart;
use guide::GuideRecord;
use hierarchy::Refusal;
use sheet::Edit;
use std::io;

// From the entry of structure 0 to itself.
const TURN: Edit = Edit::Edge { i: 0, p: 0, w: 0 };

// A chart with one edit more.
fn edited(chart: Result<Chart, Refusal>, edit: Edit) -> Result<Chart, Refusal> {
    let mut chart = chart?;
    chart.apply(edit)?;
    Ok(chart)
}

// One structure, with its entry only.
fn begun() -> Result<Chart, Refusal> {
    let mut chart = Chart::new();
    chart.begin(1)?;
    Ok(chart)
}

fn marked_entry() -> Result<Chart, Refusal> {
    edited(
        begun(),
        Edit::Look {
            i: 0,
            p: 0,
            look: 128,
        },
    )
}

fn turning_entry() -> Result<Chart, Refusal> {
    edited(marked_entry(), TURN)
}

// The entry leads to box 1, whose inner entry leads to its exit 1; box 1 leads by this exit to node 2, marked and of
// letter 1, which leads to box 1 again.
pub fn ring() -> Result<Chart, Refusal> {
    let mut chart = Chart::new();
    chart.begin(2)?;
    chart.add_box(0, 1)?;
    chart.node(0, 129)?;
    chart.node(1, 0)?;
    chart.exit(1, 1)?;
    chart.edge(1, 0, 1)?;
    chart.edge(0, 0, 1)?;
    chart.leave(0, 1, 1, 2)?;
    chart.edge(0, 2, 1)?;
    Ok(chart)
}

// A chart whose structure 0 has as many places as there is room for.
pub fn full(structures: usize) -> Result<Chart, Refusal> {
    let mut chart = Chart::new();
    chart.begin(structures)?;
    for _ in 0..15 {
        chart.node(0, 0)?;
    }
    Ok(chart)
}

fn tell_rings(rt: &HostRuntime, guide: &mut [GuideRecord]) -> io::Result<()> {
    let open = edited(ring(), Edit::Unedge { i: 0, p: 2, w: 1 });
    let blocked = edited(ring(), Edit::Unedge { i: 1, p: 0, w: 1 });
    tell_chart(rt, "ring", ring(), guide)?;
    tell_chart(rt, "ring without edge 2 to 1", open, guide)?;
    tell_chart(rt, "ring without inner edge 0 to 1", blocked, guide)
}

fn tell_refused(rt: &HostRuntime, guide: &mut [GuideRecord]) -> io::Result<()> {
    let in_itself = edited(begun(), Edit::Box { i: 0, inner: 0 });
    let of_nothing = edited(begun(), Edit::Box { i: 0, inner: 1 });
    let one_more = edited(full(1), Edit::Node { i: 0, look: 0 });
    let twice = edited(turning_entry(), TURN);
    tell_chart(rt, "box in itself", in_itself, guide)?;
    tell_chart(rt, "box of nothing", of_nothing, guide)?;
    tell_chart(rt, "17th place", one_more, guide)?;
    tell_chart(rt, "same edge twice", twice, guide)
}

pub fn tell_charts(rt: &HostRuntime, guide: &mut [GuideRecord]) -> io::Result<()> {
    tell_chart(rt, "new chart", Ok(Chart::new()), guide)?;
    tell_chart(rt, "entry marked", marked_entry(), guide)?;
    tell_chart(rt, "entry marked, turning", turning_entry(), guide)?;
    tell_rings(rt, guide)?;
    tell_refused(rt, guide)
}
