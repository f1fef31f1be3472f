// What edits answer, the least refusal first, and what a full chart answers.
// An edit is told by 0 where it is accepted, and else by the number of its refusal: numbers, since what is tested here are
// those that the documents name.
use chart::Chart;
use hierarchy::{Hierarchy, Size};
use sheet::Edit;
use std::test::Fail;

const FAR: usize = usize::MAX;

// 0 for an accepted edit, which is no refusal's number, and the refusal's number for another: so a table of numbers reads
// as the lists of the documents do.
fn answer(chart: &mut Chart, edit: Edit) -> u8 {
    chart
        .apply(edit)
        .map_or_else(|refusal| refusal.number(), |_| 0)
}

// Two crates of tests have this function: a crate for it would be no plainer.
fn size(structures: usize, places: usize) -> Option<Size> {
    Some(Size { structures, places })
}

fn look(i: usize, p: usize, look: u8) -> Edit {
    Edit::Look { i, p, look }
}

fn leave(i: usize, b: usize, e: usize, w: usize) -> Edit {
    Edit::Leave { i, b, e, w }
}

fn unleave(i: usize, b: usize, e: usize, w: usize) -> Edit {
    Edit::Unleave { i, b, e, w }
}

#[test]
fn one_structure_refuses(rt: HostRuntime) {
    let script = [
        (3, Edit::Box { i: 0, inner: 0 }),
        (3, Edit::Box { i: 9, inner: 2 }),
        (3, Edit::Box { i: FAR, inner: FAR }),
        (20, Edit::Box { i: 0, inner: 1 }),
        (20, Edit::Box { i: 0, inner: FAR }),
        (2, Edit::Node { i: 1, look: 0x10 }),
        (2, Edit::Node { i: 0, look: 0x40 }),
        (20, Edit::Node { i: 1, look: 0x8f }),
        (20, Edit::Node { i: FAR, look: 0 }),
        (2, look(9, 9, 0x20)),
        (20, look(9, 0, 0)),
        (21, look(0, 1, 0)),
        (20, Edit::Exit { i: 1, p: 0 }),
        (21, Edit::Exit { i: 0, p: FAR }),
        (0, look(0, 0, 0x8f)),
        (0, Edit::Exit { i: 0, p: 0 }),
        (26, Edit::Exit { i: 0, p: 0 }),
    ];
    let mut chart = Chart::new();
    for (number, edit) in script {
        assert_eq!(rt; answer(&mut chart, edit), number);
    }
    assert_eq!(rt; chart.size(), size(1, 1));
}

// The box 1 and the node 2 in structure 0, the exit 1 in structure 1.
fn two_structures() -> Result<Chart, Fail> {
    let mut chart = Chart::new();
    chart.begin(2)?;
    chart.add_box(0, 1)?;
    chart.node(0, 0x81)?;
    chart.node(1, 0)?;
    chart.exit(1, 1)?;
    Ok(chart)
}

#[test]
fn edges_refuse(rt: HostRuntime) -> Result<(), Fail> {
    let script = [
        (20, Edit::Edge { i: 2, p: 9, w: 9 }),
        (21, Edit::Edge { i: 0, p: 3, w: 0 }),
        (21, Edit::Edge { i: 0, p: 0, w: FAR }),
        (22, Edit::Edge { i: 0, p: 1, w: 2 }),
        (0, Edit::Edge { i: 0, p: 0, w: 2 }),
        (26, Edit::Edge { i: 0, p: 0, w: 2 }),
        (27, Edit::Unedge { i: 0, p: 2, w: 0 }),
        (0, Edit::Unedge { i: 0, p: 0, w: 2 }),
        (27, Edit::Unedge { i: 0, p: 0, w: 2 }),
        (22, Edit::Unedge { i: 0, p: 1, w: 1 }),
        (22, Edit::Exit { i: 0, p: 1 }),
        (22, look(0, 1, 0)),
    ];
    let mut chart = two_structures()?;
    for (number, edit) in script {
        assert_eq!(rt; answer(&mut chart, edit), number);
    }
    assert!(rt; !chart.has_edge(0, 0, 2));
    Ok(())
}

#[test]
fn leaves_refuse(rt: HostRuntime) -> Result<(), Fail> {
    let script = [
        (20, leave(FAR, 0, 0, 0)),
        (21, leave(0, FAR, 0, 0)),
        (21, leave(0, 1, 1, 3)),
        (23, leave(0, 0, 9, 2)),
        (24, leave(0, 1, 0, 2)),
        (24, leave(0, 1, FAR, 2)),
        (27, unleave(0, 1, 1, 2)),
        (0, leave(0, 1, 1, 2)),
        (26, leave(0, 1, 1, 2)),
        (27, unleave(0, 1, 1, 0)),
        (0, unleave(0, 1, 1, 2)),
        (0, leave(0, 1, 1, 0)),
    ];
    let mut chart = two_structures()?;
    for (number, edit) in script {
        assert_eq!(rt; answer(&mut chart, edit), number);
    }
    assert!(rt; chart.has_leave(0, 1, 1, 0));
    assert!(rt; !chart.has_leave(0, 1, 1, 2));
    assert!(rt; !chart.has_leave(FAR, FAR, FAR, FAR));
    Ok(())
}

#[test]
fn charts_have_1_to_32_structures(rt: HostRuntime) -> Result<(), Fail> {
    let mut chart = two_structures()?;
    assert!(rt; chart.begin(0).is_err());
    assert!(rt; chart.begin(33).is_err());
    assert!(rt; chart.begin(FAR).is_err());
    assert_eq!(rt; chart.size(), size(2, 3));
    chart.begin(32)?;
    assert_eq!(rt; chart.size(), size(32, 1));
    Ok(())
}

#[test]
fn a_17th_place_is_refused(rt: HostRuntime) -> Result<(), Fail> {
    let mut chart = Chart::new();
    chart.begin(2)?;
    for _ in 1..16 {
        chart.node(0, 0)?;
    }
    assert_eq!(rt; answer(&mut chart, Edit::Node { i: 0, look: 0 }), 25);
    assert_eq!(rt; answer(&mut chart, Edit::Box { i: 0, inner: 1 }), 25);
    assert_eq!(rt; answer(&mut chart, Edit::Box { i: 0, inner: 2 }), 20);
    assert_eq!(rt; chart.size(), size(2, 16));
    Ok(())
}

// Eight exits and eight boxes; the last structure has nodes for the boxes.
fn fill_places(chart: &mut Chart, i: usize) -> Result<(), Fail> {
    chart.exit(i, 0)?;
    for p in 1..8 {
        chart.node(i, 0x8f)?;
        chart.exit(i, p)?;
    }
    for _ in 8..16 {
        if i < 31 {
            chart.add_box(i, i + 1)?;
        } else {
            chart.node(i, 0)?;
        }
    }
    Ok(())
}

fn fill_leaves(chart: &mut Chart, i: usize) -> Result<(), Fail> {
    for b in 8..16 {
        for e in 0..8 {
            for w in 0..16 {
                chart.leave(i, b, e, w)?;
            }
        }
    }
    Ok(())
}

#[test]
fn a_chart_full_of_leaves(rt: HostRuntime) -> Result<(), Fail> {
    let mut chart = Chart::new();
    chart.begin(32)?;
    for i in 0..32 {
        fill_places(&mut chart, i)?;
    }
    for i in 0..31 {
        fill_leaves(&mut chart, i)?;
    }
    assert_eq!(rt; chart.size(), size(32, 16));
    assert!(rt; chart.has_leave(0, 8, 0, 0) && chart.has_leave(30, 15, 7, 15));
    assert!(rt; !chart.has_leave(31, 15, 7, 15));
    assert_eq!(rt; answer(&mut chart, leave(30, 15, 7, 15)), 26);
    Ok(())
}
