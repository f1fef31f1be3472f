// One task from start to end: a two-port schedule is drawn, stored, loaded, judged, found to starve a port, and mended.
// Every sentence that is printed states what took place.
#![tactic(auto)]

mod draw;
mod file;
mod verdict;
mod watch;

use chart::Chart;
use std::io;

fn tell(rt: &HostRuntime) -> io::Result<()> {
    let mut chart = Chart::new();
    println!(rt;
        "A scheduler serves port A and then port B; both transfers are one structure, shared by two boxes."
    )?;
    draw::draw(rt, &mut chart)?;
    draw::try_refused(rt, &mut chart)?;
    file::store_and_load(rt)?;
    file::damage(rt)?;
    verdict::judge_bare(rt, &chart)?;
    let starves = watch::starves_b(rt)?;
    let serves = watch::serves_a(rt)?;
    watch::lay(rt, &chart, &starves)?;
    verdict::show_forbidden(rt, &chart, [serves, starves])?;
    draw::mend(rt, &mut chart)?;
    verdict::show_free(rt, &chart, [serves, starves])
}

fn main(rt: HostRuntime) -> io::Result<()> {
    tell(&rt)
}
