// Chart files: records, each one byte of kind and a body of fixed length, read into a chart and a monitor.
// A fault tells why, in which record, and where that record starts; the records before it stand.
#![tactic(auto)]

ghost use Rattle.std.specs.Prelude.{◌≡◌, true};
ghost use Rattle.chartfile.specs.Files.{Loaded, LoadsOneWay, drawing, first_faulty};
ghost use Rattle.chartfile.specs.Stored.{StoredFilesLoad};

use chart::Chart;
use hierarchy::Refusal;
use monitor::Monitor;

mod kind;
mod one;
mod perform;
mod read;
mod record;
mod store;

pub use record::Record;
pub use store::{Unstored, write};

// How many bytes a chart file has at most.
pub const LONGEST: usize = 16384;

// Why a file is refused: the refusal, the record, counted from 1, and the offset of its kind byte, counted from 0.
#[derive(Clone, Copy, PartialEq, Eq, Debug)]
pub struct Fault {
    pub refusal: Refusal,
    pub record: usize,
    pub offset: usize,
}

impl Fault {
    // A fault of the whole file.
    fn at_start(refusal: Refusal) -> Fault
        ensures { result ≡ record { refusal = refusal; «record» = 1; offset = 0 } }
    {
        Fault {
            refusal,
            record: 1,
            offset: 0,
        }
    }
}

// Reads a whole file into the chart and the monitor. Answers whether the file has a record of a monitor. A fault in the
// first record leaves both equal.
pub fn load(bytes: &[u8], chart: &mut Chart, monitor: &mut Monitor) -> Result<bool, Fault>
    ensures loaded { Loaded (drawing chart.old monitor.old) bytes.now result (drawing chart.new monitor.new) }
    ensures unaltered { first_faulty result ≡ true → (chart.new ≡ chart.old) × (monitor.new ≡ monitor.old) }
{
    if bytes.len() > LONGEST {
        return Err(Fault::at_start(Refusal::FileTooLong));
    }
    if bytes.is_empty() {
        return Err(Fault::at_start(Refusal::BeginMisplaced));
    }
    let mut rest = bytes;
    let mut record = 1;
    let mut watched = false;
    while !rest.is_empty() {
        let offset = bytes.len() - rest.len();
        let (watches, next) = one::read_at(rest, record, offset, chart, monitor)?;
        watched |= watches;
        record += 1;
        rest = next;
    }
    Ok(watched)
}

// One file loads in one way: what `load` tells of is all there is to tell.
pub fn files_load_one_way()
    ensures { LoadsOneWay }
{}

// Records that stand, stored, load to where they lead.
pub fn stored_files_load()
    ensures { StoredFilesLoad }
{}
