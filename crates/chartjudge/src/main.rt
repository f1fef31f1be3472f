// Reads a chart file from standard input, judges it, bare or under its monitor, and prints the report or the refusal.
// All that is printed is made by the library; here it is only read and written.
#![tactic(auto)]

use chartfile::LONGEST;
use guide::GuideRecord;
use report::{OUTPUT, report_file};
use std::io;
use std::io::{Read, Write};
use walk::Frame;

const RECORDS: usize = 4096;

const FRAMES: usize = 256;

fn main(rt: HostRuntime) -> io::Result<()> {
    let mut input = Vec::new(rt.alloc());
    // one byte more than a file may have is enough to refuse it
    rt.stdin().take(LONGEST as u64 + 1).read_to_end(&mut input)?;
    let mut guide = vec![in rt.alloc(); GuideRecord::blank(); RECORDS]?;
    let mut frames = vec![in rt.alloc(); Frame::blank(); FRAMES]?;
    let mut output = vec![in rt.alloc(); 0u8; OUTPUT]?;
    // so much output is never too little, and nothing else is refused
    let count = report_file(&input, &mut guide, &mut frames, &mut output).unwrap_or(0);
    rt.stdout().write_all(&output[..count])
}
