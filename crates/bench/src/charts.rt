// Charts that are measured: one nested so deep that its flat form cannot be unfolded, and ones with many exits.
// They are made by edits, as any chart is.
use chart::Chart;
use hierarchy::Refusal;

// The program worked_run draws the same chart: a crate for two functions of two programs would be no plainer.
// In structure `i` the entry leads to box 1, box 1 to box 2, and box 2 to the exit 3; both boxes name the structure below.
fn nest(
    chart: &mut Chart,
    i: usize,
    inner: usize,
    inner_exit: usize,
    look: u8,
) -> Result<(), Refusal> {
    chart.add_box(i, inner)?;
    chart.add_box(i, inner)?;
    chart.node(i, look)?;
    chart.exit(i, 3)?;
    chart.edge(i, 0, 1)?;
    chart.leave(i, 1, inner_exit, 2)?;
    chart.leave(i, 2, inner_exit, 3)
}

// 32 structures, each but the first shared twice by the one above; the end of structure 0 is marked and leads to its
// entry. More than two thousand million flat states form one cycle.
pub fn nested() -> Result<Chart, Refusal> {
    let mut chart = Chart::new();
    chart.begin(32)?;
    chart.node(31, 0)?;
    chart.exit(31, 1)?;
    chart.edge(31, 0, 1)?;
    nest(&mut chart, 30, 31, 1, 0)?;
    for i in (1..30).rev() {
        nest(&mut chart, i, i + 1, 3, 0)?;
    }
    nest(&mut chart, 0, 1, 3, 128)?;
    chart.edge(0, 3, 0)?;
    Ok(chart)
}

// The entry of structure 1 leads to each of its exits. Gives the last exit.
fn inner_exits(chart: &mut Chart, exits: usize) -> Result<usize, Refusal> {
    let mut last = 0;
    for _ in 0..exits {
        last = chart.node(1, 0)?;
        chart.exit(1, last)?;
        chart.edge(1, 0, last)?;
    }
    Ok(last)
}

// One box is left by its last exit only, for as many nodes as there are leaves. A search that seeks one leave after the
// other asks of the exits before it each time.
pub fn many_exits(exits: usize, leaves: usize) -> Result<Chart, Refusal> {
    let mut chart = Chart::new();
    chart.begin(2)?;
    let by = inner_exits(&mut chart, exits)?;
    let b = chart.add_box(0, 1)?;
    chart.edge(0, 0, b)?;
    for _ in 0..leaves {
        let w = chart.node(0, 0)?;
        chart.leave(0, b, by, w)?;
    }
    Ok(chart)
}
