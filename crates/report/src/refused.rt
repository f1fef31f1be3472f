// What is printed of a refusal, and of a fault in a chart file.
ghost use Rattle.std.specs.Prelude.{◌≡◌, ◌≤◌, ◌++◌, length};
ghost use Rattle.std.specs.Result.{result_err};
ghost use Rattle.hierarchy.specs.Refusals.{refusal_number};
ghost use Rattle.report.specs.Writing.{Room};
ghost use Rattle.report.specs.Refused.{refused_text, place_text, refusal_line, fault_line, line_refusal, Gives};

use crate::text::{push_number, put_front};
use arrayvec::ArrayString;
use chartfile::Fault;
use hierarchy::Refusal;

// How many bytes of output such a line needs, whatever its numbers.
const LINE: usize = 80;

#[tactic(auto, using(crate::proofs::Given::byte_length))]
fn refused(refusal: Refusal) -> ArrayString<LINE>
    ensures text { result.bytes ≡ refused_text (refusal_number refusal) }
    ensures short { length result.bytes ≤ 11 }
{
    let mut text = ArrayString::new();
    text.push_str("refused ");
    push_number(&mut text, usize::from(refusal.number()));
    text
}

// Where a fault is: in the nth record, which starts at the offset.
fn push_place(text: &mut ArrayString<LINE>, nth: usize, offset: usize)
    requires { Room 80 text.old.bytes (place_text nth offset) }
    ensures { text.new.bytes ≡ text.old.bytes ++ place_text nth offset }
{
    text.push_str(" record ");
    push_number(text, nth);
    text.push_str(" byte ");
    push_number(text, offset);
    text.push_str("\n");
}

// Writes `refused N` and a line feed to the front of the output, which needs 80 bytes.
pub fn refusal_text(refusal: Refusal, output: &mut [u8]) -> Result<usize, Refusal>
    ensures refused { result_err result ≡ line_refusal (length output.old) }
    ensures given { Gives (refusal_line refusal) output.old output.new result }
{
    if output.len() < LINE {
        return Err(Refusal::TooLittleMemory);
    }
    let mut text = refused(refusal);
    text.push_str("\n");
    Ok(put_front(&text, output))
}

// Writes `refused N record R byte B` and a line feed to the front of the output, which needs 80 bytes.
#[tactic(auto, using(crate::proofs::Given::place_length))]
pub fn fault_text(fault: Fault, output: &mut [u8]) -> Result<usize, Refusal>
    ensures refused { result_err result ≡ line_refusal (length output.old) }
    ensures given { Gives (fault_line fault) output.old output.new result }
{
    if output.len() < LINE {
        return Err(Refusal::TooLittleMemory);
    }
    let mut text = refused(fault.refusal);
    push_place(&mut text, fault.record, fault.offset);
    Ok(put_front(&text, output))
}
