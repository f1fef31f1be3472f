// The edits of a monitor as values, one by one and as a list.
// A list of edits, from a new monitor on, says which automaton a monitor is.
ghost use Rattle.std.specs.Prelude.{◌≡◌, false, is_ok};
ghost use Rattle.monitor.specs.Replay.{applied, replayed};
ghost use Rattle.monitor.specs.Tables.{automaton_of};

use crate::Monitor;
use hierarchy::Refusal;

#[derive(Clone, Copy, PartialEq, Eq, Debug)]
pub enum MonitorEdit {
    State,
    Step {
        q: usize,
        care: u8,
        value: u8,
        r: usize,
    },
    Accept {
        q: usize,
    },
}

impl Monitor {
    // One edit, whichever it is.
    pub fn apply(&mut self, edit: MonitorEdit) -> Result<(), Refusal>
        ensures answer { result ≡ (applied (automaton_of self.old) edit).answer }
        ensures after { automaton_of self.new ≡ (applied (automaton_of self.old) edit).automaton }
        ensures unchanged { is_ok result ≡ false → self.new ≡ self.old }
    {
        match edit {
            MonitorEdit::State => self.state().map(|_| ()),
            MonitorEdit::Step { q, care, value, r } => self.step(q, care, value, r),
            MonitorEdit::Accept { q } => self.accept(q),
        }
    }

    // All of a list of edits; one that is refused alters nothing.
    // Chart and monitor each have this loop: a trait for it would be longer than both.
    pub fn replay(&mut self, edits: &[MonitorEdit])
        ensures { automaton_of self.new ≡ replayed (automaton_of self.old) edits.now }
    {
        for edit in edits {
            let _ = self.apply(*edit);
        }
    }
}
