// One line for each hierarchy that is judged, and for each edit that is refused.
// The name comes first, then the size if there is one, then the answers or the refusal's number.
use chart::Chart;
use guide::GuideRecord;
use hierarchy::{Hierarchy, Refusal, Size};
use judge::judge;
use layer::Layer;
use monitor::Monitor;
use std::io;

// A chart and the monitor that is laid over it.
#[derive(Drop)]
pub struct Watched {
    pub chart: Chart,
    pub monitor: Monitor,
}

// Two programs have this function: a crate for it would be no plainer.
fn yes_or_no(answer: bool) -> &'static str {
    if answer { "yes" } else { "no" }
}

// What is judged, and what the judge says of it. What prints and what is lent go beside the name here and below: a value for
// the three would be made anew for each line.
pub fn tell<B: Hierarchy>(
    rt: &HostRuntime,
    name: &str,
    h: &B,
    guide: &mut [GuideRecord],
) -> io::Result<()> {
    print!(rt; "{name}: ")?;
    if let Some(Size { structures, places }) = h.size() {
        print!(rt; "size {structures} {places}, ")?;
    }
    tell_judgment(rt, h, guide)
}

fn tell_judgment<B: Hierarchy>(
    rt: &HostRuntime,
    h: &B,
    guide: &mut [GuideRecord],
) -> io::Result<()> {
    match judge(h, guide) {
        Ok(verdict) => {
            let reach = yes_or_no(verdict.reach);
            let recur = yes_or_no(verdict.recur.is_some());
            println!(rt; "reach {reach}, recur {recur}")
        }
        Err(refusal) => tell_refusal(rt, refusal),
    }
}

fn tell_refusal(rt: &HostRuntime, refusal: Refusal) -> io::Result<()> {
    let number = refusal.number();
    println!(rt; "refused {number}")
}

// What was made is told by a function; what could not be made, by its refusal.
pub(crate) fn tell_made<T, F: FnOnce(T) -> io::Result<()> + Drop>(
    rt: &HostRuntime,
    name: &str,
    made: Result<T, Refusal>,
    tell: F,
) -> io::Result<()>
    requires { F.IsAlwaysCallable tell }
{
    match made {
        Ok(made) => tell(made),
        Err(refusal) => {
            print!(rt; "{name}: ")?;
            tell_refusal(rt, refusal)
        }
    }
}

// A chart as its edits made it, or the refusal of one of them.
pub fn tell_chart(
    rt: &HostRuntime,
    name: &str,
    chart: Result<Chart, Refusal>,
    guide: &mut [GuideRecord],
) -> io::Result<()> {
    tell_made(rt, name, chart, |chart| tell(rt, name, &chart, guide))
}

// A chart under one monitor.
pub fn tell_under(
    rt: &HostRuntime,
    name: &str,
    watched: Result<Watched, Refusal>,
    guide: &mut [GuideRecord],
) -> io::Result<()> {
    tell_made(rt, name, watched, |watched| {
        let layer = Layer::new(&watched.chart, &watched.monitor);
        tell(rt, name, &layer, guide)
    })
}

// A chart under the same monitor twice. Layers nest in types, so their number is no argument.
pub fn tell_under_two(
    rt: &HostRuntime,
    name: &str,
    watched: Result<Watched, Refusal>,
    guide: &mut [GuideRecord],
) -> io::Result<()> {
    tell_made(rt, name, watched, |watched| {
        let one = Layer::new(&watched.chart, &watched.monitor);
        let two = Layer::new(&one, &watched.monitor);
        tell(rt, name, &two, guide)
    })
}
