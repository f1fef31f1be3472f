// One row for each hierarchy: its size, the questions that the judge asks of it, and how they grow.
// Each row has guide memory of its own, just enough for its size.
use crate::counted::Counted;
use guide::GuideRecord;
use hierarchy::{Hierarchy, Refusal, Size};
use judge::judge;
use std::io;

// What could not be made or judged.
fn tell_refusal(rt: &HostRuntime, refusal: Refusal) -> io::Result<()> {
    let number = refusal.number();
    println!(rt; "refused {number}")
}

// Hundredths of a question for each structure and each pair of place numbers.
fn hundredths(asked: u64, size: Size) -> u64 {
    let places = size.places as u64;
    let room = places
        .saturating_mul(places)
        .saturating_mul(size.structures as u64);
    asked.saturating_mul(100).checked_div(room).unwrap_or(0)
}

fn tell_asked(rt: &HostRuntime, asked: u64, size: Size) -> io::Result<()> {
    let share = hundredths(asked, size);
    let Size { structures, places } = size;
    println!(rt; "size {structures} {places}, questions {asked}, {share} hundredths of S * P * P")
}

// A row has guide records for each structure and one more, which may not overflow for any size that is told.
fn measure_sized<B: Hierarchy>(rt: &HostRuntime, h: &B, size: Size) -> io::Result<()> {
    let records = size
        .structures
        .saturating_add(1)
        .saturating_mul(size.places);
    let mut guide = vec![in rt.alloc(); GuideRecord::blank(); records]?;
    let counted = Counted::new(h);
    match judge(&counted, guide.as_mut_slice()) {
        Ok(_) => tell_asked(rt, counted.asked(), size),
        Err(refusal) => tell_refusal(rt, refusal),
    }
}

// A hierarchy and its size.
fn sized<B: Hierarchy + Drop>(made: Result<B, Refusal>) -> Result<(B, Size), Refusal> {
    let h = made?;
    let size = h.size().ok_or(Refusal::TooLarge)?;
    Ok((h, size))
}

// The row of a hierarchy, after its name, or the refusal of what could not be made.
pub fn measure<B: Hierarchy + Drop>(rt: &HostRuntime, made: Result<B, Refusal>) -> io::Result<()> {
    match sized(made) {
        Ok((h, size)) => measure_sized(rt, &h, size),
        Err(refusal) => tell_refusal(rt, refusal),
    }
}
