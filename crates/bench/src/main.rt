// Counts the questions that the judge asks of growing wheels and of charts, beside their sizes.
// With one exit to a structure they grow as S * P * P does; with more, also as the exits do; and not as the flat form does.
#![tactic(auto)]

mod charts;
mod counted;
mod measure;

use crate::charts::{many_exits, nested};
use crate::measure::measure;
use std::io;
use wheel::Wheel;

fn measure_wheel(rt: &HostRuntime, sizes: &[usize]) -> io::Result<()> {
    let levels = sizes.len();
    let items = sizes.first().copied().unwrap_or(0);
    print!(rt; "wheel, levels {levels}, items {items}: ")?;
    measure(rt, Wheel::new(sizes))
}

fn measure_exits(rt: &HostRuntime, exits: usize, leaves: usize) -> io::Result<()> {
    print!(rt; "chart, exits {exits}, leaves {leaves}: ")?;
    measure(rt, many_exits(exits, leaves))
}

fn measure_wheels(rt: &HostRuntime) -> io::Result<()> {
    for levels in [1, 2, 4, 8, 16] {
        measure_wheel(rt, &[20; 16][..levels])?;
    }
    for items in [10, 40, 80, 160] {
        measure_wheel(rt, &[items; 3])?;
    }
    Ok(())
}

fn main(rt: HostRuntime) -> io::Result<()> {
    measure_wheels(&rt)?;
    print!(rt; "chart, nested: ")?;
    measure(&rt, nested())?;
    measure_exits(&rt, 1, 13)?;
    measure_exits(&rt, 7, 13)?;
    measure_exits(&rt, 14, 13)?;
    measure_exits(&rt, 14, 1)
}
