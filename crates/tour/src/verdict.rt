// The judge's verdicts on the drawing, bare and under the two monitors, and the walk of a forbidden loop.
use crate::draw::tell_refusal;
use chart::Chart;
use endless::{Judgment, judge_under};
use guide::GuideRecord;
use hierarchy::Refusal;
use layer::Pile;
use monitor::Monitor;
use std::alloc::{AllocError, Global};
use std::io;
use walk::{Frame, Walk};

// as many records and frames as the program chartjudge lends; a crate for two constants would be no plainer
const RECORDS: usize = 4096;

const FRAMES: usize = 256;
// how many states of a walk are told
const STATES: u64 = 12;

// What is lent to a judgment and a walk.
#[derive(Drop)]
struct Memory {
    guide: Vec<GuideRecord>,
    frames: Vec<Frame>,
}

impl Memory {
    fn new(alloc: Global) -> Result<Memory, AllocError> {
        Ok(Memory {
            guide: vec![in alloc; GuideRecord::blank(); RECORDS]?,
            frames: vec![in alloc; Frame::blank(); FRAMES]?,
        })
    }
}

// Two programs have this function: a crate for it would be no plainer.
fn yes(answer: bool) -> &'static str {
    if answer { "yes" } else { "no" }
}

// What the judge said, in words.
fn tell_verdict(rt: &HostRuntime, judged: Result<Judgment, Refusal>) -> io::Result<()> {
    match judged {
        Ok(judgment) => {
            let reach = yes(judgment.reach);
            let recur = yes(judgment.walk.is_some());
            println!(rt;
                "  a marked state is reachable: {reach}; one comes round without end: {recur}"
            )
        }
        Err(refusal) => tell_refusal(rt, refusal),
    }
}

pub fn judge_bare(rt: &HostRuntime, chart: &Chart) -> io::Result<()> {
    let Memory {
        mut guide,
        mut frames,
    } = Memory::new(rt.alloc())?;
    println!(rt; "The chart was judged without a requirement, marked where A is served:")?;
    tell_verdict(rt, judge_under(chart, &[], &mut guide, &mut frames, 0))
}

// One line for the state that a walk shows, in the chart's own numbers: each number of the pile is divided by 16.
fn tell_state(
    rt: &HostRuntime,
    pile: &Pile<'_, Chart>,
    walk: &Walk,
    frames: &[Frame],
) -> io::Result<()> {
    print!(rt; "  ")?;
    for frame in walk.outer(frames) {
        let place = frame.place / 16;
        print!(rt; "box {place}, ")?;
    }
    let node = walk.node(pile) / 16;
    let mark = if walk.is_marked(pile, frames) {
        " (marked)"
    } else {
        ""
    };
    println!(rt; "node {node}{mark}")
}

fn tell_walk<'a>(rt: &HostRuntime, chart: &'a Chart, monitors: &'a [Monitor]) -> io::Result<()> {
    let Memory {
        mut guide,
        mut frames,
    } = Memory::new(rt.alloc())?;
    let pile = Pile::new(chart, monitors);
    match endless::judge_and_walk(&pile, &mut guide, &mut frames, 0) {
        Ok(
            Judgment {
                walk: Some(mut walk),
                ..
            },
        ) => {
            println!(rt; "A walk was started, and shows the forbidden loop:")?;
            tell_state(rt, &pile, &walk, &frames)?;
            for _ in 0..STATES {
                match walk.step(&pile, &guide, &mut frames) {
                    Ok(()) => tell_state(rt, &pile, &walk, &frames)?,
                    Err(refusal) => tell_refusal(rt, refusal)?,
                }
            }
            Ok(())
        }
        Ok(Judgment { walk: None, .. }) => println!(rt; "There is no walk to show."),
        Err(refusal) => tell_refusal(rt, refusal),
    }
}

pub fn show_forbidden(rt: &HostRuntime, chart: &Chart, monitors: [Monitor; 2]) -> io::Result<()> {
    let Memory {
        mut guide,
        mut frames,
    } = Memory::new(rt.alloc())?;
    println!(rt; "Both monitors were laid over the chart, and the pile was judged:")?;
    tell_verdict(
        rt,
        judge_under(chart, &monitors, &mut guide, &mut frames, 0),
    )?;
    tell_walk(rt, chart, &monitors)
}

// What the verdict on the mended drawing means.
fn tell_meaning(rt: &HostRuntime, judged: &Result<Judgment, Refusal>) -> io::Result<()> {
    match judged {
        Ok(Judgment { walk: None, .. }) => {
            println!(rt;
                "No run serves A without end and starves B: the schedule is free of the forbidden loop."
            )
        }
        Ok(Judgment { walk: Some(_), .. }) => println!(rt; "The forbidden loop is still there."),
        Err(_) => println!(rt; "There is no verdict."),
    }
}

pub fn show_free(rt: &HostRuntime, chart: &Chart, monitors: [Monitor; 2]) -> io::Result<()> {
    let Memory {
        mut guide,
        mut frames,
    } = Memory::new(rt.alloc())?;
    println!(rt; "The monitors were laid again, and the pile was judged:")?;
    let judged = judge_under(chart, &monitors, &mut guide, &mut frames, 0);
    tell_meaning(rt, &judged)?;
    tell_verdict(rt, judged)
}
