// Text that is built in a value of fixed size, with numbers in decimal, and then put to the front of lent memory.
ghost use Rattle.std.specs.Prelude.{◌≡◌, ◌≤◌, ◌++◌, length, decimal};
ghost use Rattle.report.specs.Writing.{Room};
ghost use Rattle.report.specs.Refused.{Given};

use arrayvec::ArrayString;
use itoa::Buffer;

// How many bytes of output a report needs at least, whatever it prints.
pub const OUTPUT: usize = 2048;

// A report while it is built.
pub(crate) type ReportText = ArrayString<OUTPUT>;

// A number in decimal. Pushed and not by `write!`: there is room by the clauses, and `write!` would answer a failure that
// cannot be.
pub(crate) fn push_number<const N: usize>(text: &mut ArrayString<N>, n: usize)
    requires { Room N text.old.bytes (decimal n) }
    ensures { text.new.bytes ≡ text.old.bytes ++ decimal n }
{
    text.push_str(Buffer::new().format(n));
}

// Copies a text to the front of the output, and answers how long it is. What is behind it stays.
pub(crate) fn put_front<const N: usize>(text: &ArrayString<N>, output: &mut [u8]) -> usize
    requires { N ≤ length output.old }
    ensures { Given text.now.bytes output.old output.new result }
{
    let count = text.len();
    output[..count].copy_from_slice(text.as_bytes());
    count
}
