// Judges the worked charts, wheels and piles, and tells of each, line by line, what the judge says of it.
// A judge that makes one of the errors that nesting and monitors invite tells something else.
#![tactic(auto)]

mod charts;
mod cycle;
mod large;
mod monitors;
mod snares;
mod tell;

use crate::charts::tell_charts;
use crate::large::tell_large;
use crate::monitors::tell_monitored;
use crate::snares::tell_snares;
use guide::GuideRecord;
use std::io;

// enough for 16 structures of 1,024 places
const GUIDE: usize = 17408;

fn main(rt: HostRuntime) -> io::Result<()> {
    let mut guide = vec![in rt.alloc(); GuideRecord::blank(); GUIDE]?;
    tell_charts(&rt, guide.as_mut_slice())?;
    tell_monitored(&rt, guide.as_mut_slice())?;
    tell_snares(&rt, guide.as_mut_slice())?;
    tell_large(&rt, guide.as_mut_slice())
}
