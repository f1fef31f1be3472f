// The drawing: edits that are accepted, edits that are refused, and the one that mends it.
use chart::Chart;
use hierarchy::{Hierarchy, Refusal, Size};
use sheet::Edit;
use std::io;

// The schedule, edit by edit. Structure 0: entry 0, box 1 (A's transfer), box 2 (B's transfer), node 3 (A served, letter 1,
// marked), node 4 (B served, letter 2). Structure 1, the transfer: entry 0, node 1 (sending), node 2 (sent, its exit).
pub fn schedule() -> [Edit; 15] {
    [
        Edit::Box { i: 0, inner: 1 },
        Edit::Box { i: 0, inner: 1 },
        Edit::Node { i: 0, look: 0x81 },
        Edit::Node { i: 0, look: 2 },
        Edit::Node { i: 1, look: 0 },
        Edit::Node { i: 1, look: 0 },
        Edit::Exit { i: 1, p: 2 },
        Edit::Edge { i: 1, p: 0, w: 1 },
        Edit::Edge { i: 1, p: 1, w: 2 },
        Edit::Edge { i: 0, p: 0, w: 1 },
        Edit::Leave {
            i: 0,
            b: 1,
            e: 2,
            w: 3,
        },
        Edit::Edge { i: 0, p: 3, w: 2 },
        Edit::Leave {
            i: 0,
            b: 2,
            e: 2,
            w: 4,
        },
        Edit::Edge { i: 0, p: 4, w: 0 },
        Edit::Edge { i: 0, p: 3, w: 0 },
    ]
}

// What an accepted edit did, in words.
fn tell_edit(rt: &HostRuntime, edit: Edit, number: Option<usize>) -> io::Result<()> {
    let number = number.unwrap_or(0);
    match edit {
        Edit::Node { i, look } => println!(rt;
            "  structure {i}: node {number} was added, of look {look}"
        ),
        Edit::Box { i, inner } => println!(rt;
            "  structure {i}: box {number} was added, which stands for structure {inner}"
        ),
        Edit::Exit { i, p } => println!(rt; "  structure {i}: node {p} was made an exit"),
        Edit::Look { i, p, look } => println!(rt; "  structure {i}: node {p} got look {look}"),
        Edit::Edge { i, p, w } => println!(rt;
            "  structure {i}: an edge was added from {p} to {w}"
        ),
        Edit::Leave { i, b, e, w } => {
            println!(rt; "  structure {i}: a leave was added from box {b} by its exit {e} to {w}")
        }
        Edit::Unedge { i, p, w } => println!(rt;
            "  structure {i}: the edge from {p} to {w} was erased"
        ),
        Edit::Unleave { i, b, e, w } => {
            println!(rt;
                "  structure {i}: the leave from box {b} by its exit {e} to {w} was erased"
            )
        }
    }
}

pub fn tell_refusal(rt: &HostRuntime, refusal: Refusal) -> io::Result<()> {
    let number = refusal.number();
    println!(rt; "  refused with {number}: {refusal}")
}

pub fn tell_size(rt: &HostRuntime, size: Option<Size>) -> io::Result<()> {
    match size {
        None => println!(rt; "  it is too large"),
        Some(Size { structures, places }) => println!(rt;
            "  its size is {structures} structures with {places} places"
        ),
    }
}

fn edit(rt: &HostRuntime, chart: &mut Chart, edit: Edit) -> io::Result<()> {
    match chart.apply(edit) {
        Ok(number) => tell_edit(rt, edit, number),
        Err(refusal) => tell_refusal(rt, refusal),
    }
}

// Begins a chart of two structures and draws the schedule.
pub fn draw(rt: &HostRuntime, chart: &mut Chart) -> io::Result<()> {
    println!(rt; "The chart was begun with 2 structures, and drawn:")?;
    if let Err(refusal) = chart.begin(2) {
        tell_refusal(rt, refusal)?;
    }
    for e in schedule() {
        edit(rt, chart, e)?;
    }
    tell_size(rt, chart.size())
}

// Edits that are refused, each with its reason; the chart stays as it was.
pub fn try_refused(rt: &HostRuntime, chart: &mut Chart) -> io::Result<()> {
    println!(rt; "A box in structure 1 that would stand for structure 0 was tried:")?;
    edit(rt, chart, Edit::Box { i: 1, inner: 0 })?;
    println!(rt; "The edge from 3 to 2, which is there, was tried again:")?;
    edit(rt, chart, Edit::Edge { i: 0, p: 3, w: 2 })?;
    println!(rt; "A leave from box 1 by node 1, which is no exit, was tried:")?;
    edit(
        rt,
        chart,
        Edit::Leave {
            i: 0,
            b: 1,
            e: 1,
            w: 3,
        },
    )?;
    println!(rt; "Nothing changed by what was refused:")?;
    tell_size(rt, chart.size())
}

// Erases the shortcut by which A is served again before B.
pub fn mend(rt: &HostRuntime, chart: &mut Chart) -> io::Result<()> {
    println!(rt; "The drawing was mended:")?;
    edit(rt, chart, Edit::Unedge { i: 0, p: 3, w: 0 })
}
