// How long a cycle is, counted by walking round it once.
// It is the number of its flat states only where each flat state leads to one other.
use crate::tell::tell_made;
use guide::GuideRecord;
use hierarchy::{Hierarchy, Refusal};
use judge::{FoundMark, judge};
use std::io;
use walk::{Frame, Walk, start};

const FRAMES: usize = 16;

fn at_start<B: Hierarchy>(walk: &Walk, h: &B, frames: &[Frame]) -> bool {
    walk.boxes(frames) == 0 && walk.node(h) == h.entry(0)
}

// After how many steps, of no more than `most`, the walk stands at the initial state again.
fn steps_round<B: Hierarchy>(
    found: FoundMark,
    h: &B,
    guide: &[GuideRecord],
    frames: &mut [Frame],
    most: usize,
) -> Result<Option<usize>, Refusal> {
    let mut walk = start(found);
    for steps in 1..=most {
        walk.step(h, guide, frames)?;
        if at_start(&walk, h, frames) {
            return Ok(Some(steps));
        }
    }
    Ok(None)
}

// The length of the cycle on which a walk from the initial state comes back to it.
fn cycle_length<B: Hierarchy>(
    h: &B,
    guide: &mut [GuideRecord],
    most: usize,
) -> Result<Option<usize>, Refusal> {
    let Some(found) = judge(h, guide)?.recur else {
        return Ok(None);
    };
    let mut frames = [Frame::blank(); FRAMES];
    steps_round(found, h, guide, &mut frames, most)
}

pub fn tell_cycle<B: Hierarchy>(
    rt: &HostRuntime,
    name: &str,
    h: &B,
    guide: &mut [GuideRecord],
) -> io::Result<()> {
    tell_made(
        rt,
        name,
        cycle_length(h, guide, 100_000),
        |length| match length {
            Some(length) => println!(rt; "{name}: one cycle of {length} flat states"),
            None => println!(rt; "{name}: no short cycle"),
        },
    )
}
