// The edits of a monitor, which change it in place.
// A refused edit alters nothing; of several refusals the least number is given.
ghost use Rattle.std.specs.Prelude.{◌≡◌, false, is_ok};
ghost use Rattle.monitor.specs.Edits.{new_automaton, state_edit, step_edit, accept_edit, Ascends, state_refusals, step_refusals, accept_refusals};
ghost use Rattle.monitor.specs.Tables.{automaton_of};

use crate::Monitor;
use crate::steps::Steps;
use hierarchy::Refusal;

impl Monitor {
    // State 0 only, not accepting, without steps.
    pub fn new() -> Monitor
        ensures { automaton_of result ≡ new_automaton }
    {
        Monitor {
            states: 1,
            steps: Steps::none(),
            accepting: [false; 4],
        }
    }

    // Adds the next state and answers its number.
    pub fn state(&mut self) -> Result<usize, Refusal>
        ensures answer { result ≡ (state_edit (automaton_of self.old)).answer }
        ensures after { automaton_of self.new ≡ (state_edit (automaton_of self.old)).automaton }
        ensures unchanged { is_ok result ≡ false → self.new ≡ self.old }
        ensures least { Ascends (state_refusals (automaton_of self.old)) }
    {
        if self.states >= 4 {
            return Err(Refusal::Full);
        }
        let number = self.states;
        self.states += 1;
        Ok(number)
    }

    // Lets `r` follow `q` by each letter whose bits under `care` are `value`.
    pub fn step(&mut self, q: usize, care: u8, value: u8, r: usize) -> Result<(), Refusal>
        ensures answer { result ≡ (step_edit (automaton_of self.old) q care value r).answer }
        ensures after { automaton_of self.new ≡ (step_edit (automaton_of self.old) q care value r).automaton }
        ensures unchanged { is_ok result ≡ false → self.new ≡ self.old }
        ensures least { Ascends (step_refusals (automaton_of self.old) q care value r) }
    {
        if care > 15 || value > 15 || value & care != value {
            return Err(Refusal::BadStepLetter);
        }
        if q >= self.states || r >= self.states {
            return Err(Refusal::NoPlace);
        }
        self.steps = self.steps.with(q, care, value, r);
        Ok(())
    }

    // Makes `q` accepting.
    pub fn accept(&mut self, q: usize) -> Result<(), Refusal>
        ensures answer { result ≡ (accept_edit (automaton_of self.old) q).answer }
        ensures after { automaton_of self.new ≡ (accept_edit (automaton_of self.old) q).automaton }
        ensures unchanged { is_ok result ≡ false → self.new ≡ self.old }
        ensures least { Ascends (accept_refusals (automaton_of self.old) q) }
    {
        if q >= self.states {
            return Err(Refusal::NoPlace);
        }
        if self.accepting[q] {
            return Err(Refusal::AlreadyThere);
        }
        self.accepting[q] = true;
        Ok(())
    }
}
