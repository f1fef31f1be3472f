// The drawing as a file: stored, loaded, and damaged in one byte.
use crate::draw::{schedule, tell_refusal, tell_size};
use chart::Chart;
use chartfile::{Fault, Record, Unstored, load, write};
use hierarchy::Hierarchy;
use monitor::Monitor;
use std::io;

// The file of the schedule: a begin, and its edits.
fn stored(rt: &HostRuntime) -> Result<Vec<u8>, Unstored> {
    let mut records = Vec::new(rt.alloc());
    records.push(Record::Begin { structures: 2 })?;
    for edit in schedule() {
        records.push(Record::Draw { edit })?;
    }
    write(rt.alloc(), &records)
}

// Loads bytes into a new chart, and tells what came of it.
fn tell_load(rt: &HostRuntime, bytes: &[u8]) -> io::Result<()> {
    let mut chart = Chart::new();
    let mut monitor = Monitor::new();
    match load(bytes, &mut chart, &mut monitor) {
        Ok(_) => println!(rt; "  the file was loaded whole")?,
        Err(fault) => {
            let Fault {
                refusal,
                record,
                offset,
            } = fault;
            tell_refusal(rt, refusal)?;
            println!(rt;
                "  the fault is in record {record}, which starts at byte {offset}; the records before it were kept"
            )?;
        }
    }
    tell_size(rt, chart.size())
}

// Stores the drawing, and hands the bytes on.
fn with_stored<F: FnOnce(Vec<u8>) -> io::Result<()> + Drop>(
    rt: &HostRuntime,
    then: F,
) -> io::Result<()>
    requires { F.IsAlwaysCallable then }
{
    match stored(rt) {
        Ok(bytes) => then(bytes),
        Err(_) => println!(rt; "The drawing could not be stored."),
    }
}

pub fn store_and_load(rt: &HostRuntime) -> io::Result<()> {
    with_stored(rt, |bytes| {
        let count = bytes.len();
        println!(rt; "The drawing was stored as a file of {count} bytes, and loaded again:")?;
        tell_load(rt, &bytes)
    })
}

pub fn damage(rt: &HostRuntime) -> io::Result<()> {
    with_stored(rt, |mut bytes| {
        println!(rt;
            "One byte of the file was damaged, the kind of record 8, and it was loaded again:"
        )?;
        if let Some(kind) = bytes.get_mut(20) {
            *kind = 77;
        }
        tell_load(rt, &bytes)
    })
}
