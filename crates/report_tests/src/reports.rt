// A sample chart is printed as expected; too little memory is refused, and leaves the output as it was.
use chart::Chart;
use chartfile::{Fault, load};
use guide::GuideRecord;
use hierarchy::Refusal;
use monitor::Monitor;
use report::{fault_text, refusal_text, report_chart, report_file, report_monitored};
use walk::Frame;

// The sample of the documents, which two crates of tests read.
const SAMPLE: [u8; 31] = [
    1, 2, 3, 0, 1, 2, 0, 0x81, 2, 1, 0, 4, 1, 1, 6, 1, 0, 1, 6, 0, 0, 1, 7, 0, 1, 1, 2, 6, 0, 2, 1,
];

const TEXT: &[u8] = b"size 2 3\nreach yes\nrecur yes\n0\n1.0\n1.1\n2*\n1.0\n1.1\n#";

const LAYER_TEXT: &[u8] = b"size 4 6\nreach no\nrecur no\n#";

const REFUSAL_TEXT: &[u8] = b"refused 7\n#";

const FAULT_TEXT: &[u8] = b"refused 3 record 2 byte 2\n#";

// The sample's chart, and a monitor without steps.
fn sample() -> Result<(Chart, Monitor), Fault> {
    let mut chart = Chart::new();
    let mut monitor = Monitor::new();
    load(&SAMPLE, &mut chart, &mut monitor)?;
    Ok((chart, monitor))
}

#[test]
fn the_sample_is_printed(rt: HostRuntime) -> Result<(), Fault> {
    let (chart, _) = sample()?;
    let mut guide = [GuideRecord::blank(); 9];
    let mut frames = [Frame::blank(); 2];
    let mut output = [b'#'; 2048];
    assert_eq!(rt;
        report_chart(&chart, &mut guide, &mut frames, &mut output),
        Ok(50)
    );
    assert!(rt; output.starts_with(TEXT));
    Ok(())
}

#[test]
fn a_layer_is_printed_by_its_own_size(rt: HostRuntime) -> Result<(), Fault> {
    let (chart, monitor) = sample()?;
    let mut guide = [GuideRecord::blank(); 30];
    let mut frames = [Frame::blank(); 4];
    let mut output = [b'#'; 2048];
    assert_eq!(rt;
        report_monitored(&chart, &monitor, &mut guide, &mut frames, &mut output),
        Ok(27)
    );
    assert!(rt; output.starts_with(LAYER_TEXT));
    Ok(())
}

#[test]
fn too_little_memory_is_refused(rt: HostRuntime) -> Result<(), Fault> {
    let (chart, _) = sample()?;
    let mut guide = [GuideRecord::blank(); 9];
    let mut frames = [Frame::blank(); 2];
    let mut output = [b'#'; 2048];
    assert!(rt; report_chart(&chart, &mut guide[..8], &mut frames, &mut output).is_err());
    assert!(rt; report_chart(&chart, &mut guide, &mut frames[..1], &mut output).is_err());
    assert!(rt; report_chart(&chart, &mut guide, &mut frames, &mut output[..2047]).is_err());
    assert!(rt; output[0] == b'#');
    Ok(())
}

#[test]
fn a_file_is_printed_or_its_fault(rt: HostRuntime) {
    let mut guide = [GuideRecord::blank(); 9];
    let mut frames = [Frame::blank(); 2];
    let mut output = [b'#'; 2048];
    assert!(rt; report_file(&SAMPLE, &mut guide, &mut frames, &mut output[..2047]).is_err());
    assert!(rt; output[0] == b'#');
    assert!(rt; report_file(&SAMPLE, &mut guide, &mut frames, &mut output).is_ok());
    assert!(rt; output.starts_with(TEXT));
    output = [b'#'; 2048];
    assert!(rt; report_file(&[1, 2, 3, 0, 0], &mut guide, &mut frames, &mut output).is_ok());
    assert!(rt; output.starts_with(FAULT_TEXT));
}

#[test]
fn a_file_that_needs_more_memory_prints_the_refusal(rt: HostRuntime) {
    let mut guide = [GuideRecord::blank(); 8];
    let mut frames = [Frame::blank(); 2];
    let mut output = [b'#'; 2048];
    assert!(rt; report_file(&SAMPLE, &mut guide, &mut frames, &mut output).is_ok());
    assert!(rt; output.starts_with(REFUSAL_TEXT));
}

#[test]
fn refusals_are_printed(rt: HostRuntime) {
    let mut output = [b'#'; 80];
    assert!(rt; refusal_text(Refusal::TooLittleMemory, &mut output).is_ok());
    assert!(rt; output.starts_with(REFUSAL_TEXT));
    let fault = Fault {
        refusal: Refusal::BoxNotBelow,
        record: 2,
        offset: 2,
    };
    assert!(rt; fault_text(fault, &mut output).is_ok());
    assert!(rt; output.starts_with(FAULT_TEXT));
}
