// The lines of a report: its size, an answer, and a state of a walk.
ghost use Rattle.std.specs.Prelude.{◌≡◌, ◌++◌};
ghost use Rattle.walk.specs.Steps.{state_shown};
ghost use Rattle.walk.specs.Shown.{outer_frames};
ghost use Rattle.report.specs.Writing.{Room};
ghost use Rattle.report.specs.Text.{head_text, size_line, answer_line, state_line, dotted};

use crate::text::{ReportText, push_number};
use hierarchy::{Hierarchy, Size};
use walk::{Frame, Walk};

fn push_size(text: &mut ReportText, size: Size)
    requires { Room 2048 text.old.bytes (size_line size.structures size.places) }
    ensures { text.new.bytes ≡ text.old.bytes ++ size_line size.structures size.places }
{
    text.push_str("size ");
    push_number(text, size.structures);
    text.push_str(" ");
    push_number(text, size.places);
    text.push_str("\n");
}

fn push_answer(text: &mut ReportText, name: &str, answer: bool)
    requires { Room 2048 text.old.bytes (answer_line name.now answer) }
    ensures { text.new.bytes ≡ text.old.bytes ++ answer_line name.now answer }
{
    text.push_str(name);
    text.push_str(if answer { "yes\n" } else { "no\n" });
}

// Size and verdict.
pub(crate) fn push_head(text: &mut ReportText, size: Size, reach: bool, recur: bool)
    requires { Room 2048 text.old.bytes (head_text size.structures size.places reach recur) }
    ensures { text.new.bytes ≡ text.old.bytes ++ head_text size.structures size.places reach recur }
{
    push_size(text, size);
    push_answer(text, "reach ", reach);
    push_answer(text, "recur ", recur);
}

// The boxes of the state that a walk shows, with a dot behind each.
fn push_boxes(text: &mut ReportText, walk: &Walk, frames: &[Frame])
    requires { Room 2048 text.old.bytes (dotted (outer_frames walk.now frames.now)) }
    ensures { text.new.bytes ≡ text.old.bytes ++ dotted (outer_frames walk.now frames.now) }
{
    for frame in walk.outer(frames) {
        push_number(text, frame.place);
        text.push_str(".");
    }
}

// The state that a walk shows: boxes, node, and a star for a mark.
pub(crate) fn push_state<B: Hierarchy>(text: &mut ReportText, walk: &Walk, h: &B, frames: &[Frame])
    requires { Room 2048 text.old.bytes (state_line (B.Hierarchy.meaning h.now) (state_shown (B.Hierarchy.meaning h.now) walk.now frames.now)) }
    ensures { text.new.bytes ≡ text.old.bytes ++ state_line (B.Hierarchy.meaning h.now) (state_shown (B.Hierarchy.meaning h.now) walk.now frames.now) }
{
    push_boxes(text, walk, frames);
    push_number(text, walk.node(h));
    let marked = walk.is_marked(h, frames);
    text.push_str(if marked { "*\n" } else { "\n" });
}
