// Chart files: a sample, its every front, and each fault with its record and offset.
// What is written is the sample again.
use chart::Chart;
use chartfile::{Record, Unstored, load, write};
use hierarchy::{Hierarchy, Place};
use monitor::{Monitor, MonitorEdit};
use sheet::Edit;
use std::test::Fail;

// The sample of the documents, which two crates of tests read.
const SAMPLE: [u8; 31] = [
    1, 2, 3, 0, 1, 2, 0, 0x81, 2, 1, 0, 4, 1, 1, 6, 1, 0, 1, 6, 0, 0, 1, 7, 0, 1, 1, 2, 6, 0, 2, 1,
];

// The refusal, the record and the offset of the fault; nothing of a file that loads.
fn fault_of(bytes: &[u8]) -> Option<(u8, usize, usize)> {
    let mut chart = Chart::new();
    let mut monitor = Monitor::new();
    load(bytes, &mut chart, &mut monitor).err().map(|fault| (
        fault.refusal.number(),
        fault.record,
        fault.offset,
    ))
}

#[test]
fn the_sample_cut_at_every_byte(rt: HostRuntime) {
    // where each record starts, and where the last ends
    let ends = [
        (0, 2),
        (2, 5),
        (5, 8),
        (8, 11),
        (11, 14),
        (14, 18),
        (18, 22),
        (22, 27),
        (27, 31),
    ];
    assert_eq!(rt; fault_of(&[]), Some((30, 1, 0)));
    for (record, (start, end)) in (1..).zip(ends) {
        for n in start + 1..end {
            assert!(rt; n <= 31);
            assert_eq!(rt; fault_of(&SAMPLE[..n]), Some((6, record, start)));
        }
        assert!(rt; end <= 31);
        assert_eq!(rt; fault_of(&SAMPLE[..end]), None);
    }
}

#[test]
fn faults_have_their_place(rt: HostRuntime) {
    assert_eq!(rt; fault_of(&[1, 0]), Some((1, 1, 0)));
    assert_eq!(rt; fault_of(&[1, 33]), Some((1, 1, 0)));
    assert_eq!(rt; fault_of(&[1, 2, 3, 1, 1]), Some((3, 2, 2)));
    assert_eq!(rt; fault_of(&[1, 1, 1, 1]), Some((30, 2, 2)));
    assert_eq!(rt; fault_of(&[2, 0, 0]), Some((30, 1, 0)));
    assert_eq!(rt; fault_of(&[2, 0]), Some((6, 1, 0)));
    assert_eq!(rt; fault_of(&[0]), Some((5, 1, 0)));
    assert_eq!(rt; fault_of(&[1, 1, 10]), Some((5, 2, 2)));
    assert_eq!(rt; fault_of(&[1, 1, 15, 0]), Some((5, 2, 2)));
    assert_eq!(rt; fault_of(&[1, 1, 19]), Some((5, 2, 2)));
    assert_eq!(rt; fault_of(&[1, 1, 255]), Some((5, 2, 2)));
}

#[test]
fn monitors_in_files_are_refused(rt: HostRuntime) {
    assert_eq!(rt; fault_of(&[1, 1, 17, 0, 16, 0, 0]), Some((4, 2, 2)));
    assert_eq!(rt; fault_of(&[1, 1, 17, 9, 1, 2, 9]), Some((4, 2, 2)));
    assert_eq!(rt; fault_of(&[1, 1, 17, 0, 1, 1, 1]), Some((21, 2, 2)));
    assert_eq!(rt; fault_of(&[1, 1, 18, 1]), Some((21, 2, 2)));
    assert_eq!(rt; fault_of(&[1, 1, 18, 0, 18, 0]), Some((26, 3, 4)));
    assert_eq!(rt; fault_of(&[1, 1, 16, 16, 16, 16]), Some((25, 5, 5)));
    assert_eq!(rt; fault_of(&[1, 1, 16, 17, 0, 1, 1, 1, 18, 1]), None);
}

#[test]
fn a_file_has_at_most_16384_bytes(rt: HostRuntime) {
    let bytes = [1; 16385];
    assert_eq!(rt; fault_of(&bytes), Some((9, 1, 0)));
    assert_eq!(rt; fault_of(&bytes[..16384]), Some((30, 2, 2)));
}

#[test]
fn records_before_the_fault_stand(rt: HostRuntime) {
    let mut chart = Chart::new();
    let mut monitor = Monitor::new();
    assert!(rt; load(&[1, 2, 16, 3, 0, 1, 3, 1, 1], &mut chart, &mut monitor).is_err());
    assert_eq!(rt; chart.place(0, 1), Place::Box(1));
    assert_eq!(rt; chart.place(1, 1), Place::Absent);
    assert_eq!(rt; monitor.states(), 2);
    // a file that does not begin alters nothing, and one that does makes all new
    assert!(rt; load(&[2, 0, 0], &mut chart, &mut monitor).is_err());
    assert_eq!(rt; chart.place(0, 1), Place::Box(1));
    assert!(rt; load(&[1, 1], &mut chart, &mut monitor).is_ok());
    assert_eq!(rt; chart.place(0, 1), Place::Absent);
    assert_eq!(rt; monitor.states(), 1);
}

fn sample_records() -> [Record; 9] {
    [
        Record::Begin { structures: 2 },
        Record::Draw {
            edit: Edit::Box { i: 0, inner: 1 },
        },
        Record::Draw {
            edit: Edit::Node { i: 0, look: 0x81 },
        },
        Record::Draw {
            edit: Edit::Node { i: 1, look: 0 },
        },
        Record::Draw {
            edit: Edit::Exit { i: 1, p: 1 },
        },
        Record::Draw {
            edit: Edit::Edge { i: 1, p: 0, w: 1 },
        },
        Record::Draw {
            edit: Edit::Edge { i: 0, p: 0, w: 1 },
        },
        Record::Draw {
            edit: Edit::Leave {
                i: 0,
                b: 1,
                e: 1,
                w: 2,
            },
        },
        Record::Draw {
            edit: Edit::Edge { i: 0, p: 2, w: 1 },
        },
    ]
}

#[test]
fn the_sample_is_written(rt: HostRuntime) -> Result<(), Fail> {
    let bytes = write(rt.alloc(), &sample_records())?;
    assert!(rt; bytes.as_slice() == &SAMPLE[..]);
    Ok(())
}

#[test]
fn what_fits_no_byte_is_not_written(rt: HostRuntime) {
    let largest = [Record::Watch {
        edit: MonitorEdit::Accept { q: 255 },
    }];
    assert!(rt; write(rt.alloc(), &largest).is_ok());
    let larger = [Record::Watch {
        edit: MonitorEdit::Accept { q: 256 },
    }];
    assert_eq!(rt; write(rt.alloc(), &larger).err(), Some(Unstored::Field));
}
