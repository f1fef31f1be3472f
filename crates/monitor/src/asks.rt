// What a monitor answers: its steps and accepting states, and how it goes from number to number in a layer.
// Each answer takes constant time.
ghost use Rattle.std.specs.Prelude.{◌≡◌};
ghost use Rattle.monitor.specs.Automata.{Proper};
ghost use Rattle.monitor.specs.Product.{width, state_of, phase_of, moves, marks, next_phase_lem};
ghost use Rattle.monitor.specs.Tables.{automaton_of};

use crate::Monitor;
use hierarchy::Look;

impl Monitor {
    // How many states there are.
    pub fn states(&self) -> usize
        ensures states { result ≡ (automaton_of self.now).states }
        ensures proper { Proper (automaton_of self.now) }
    {
        self.states
    }

    // Whether `r` may follow `q` by the letter.
    pub fn follows(&self, q: usize, letter: u8, r: usize) -> bool
        ensures { result ≡ (automaton_of self.now).follows q letter r }
    {
        self.steps.has(q, letter, r)
    }

    pub fn is_accepting(&self, q: usize) -> bool
        ensures { result ≡ (automaton_of self.now).accepting q }
    {
        self.accepting.get(q).copied().unwrap_or(false)
    }

    // By how much a layer of this monitor multiplies the sizes below.
    pub fn width(&self) -> usize
        ensures { result ≡ width (automaton_of self.now) }
    {
        2 * self.states
    }

    // Whether the monitor goes from the number `u` above to `w`, as a node of this look is left.
    #[tactic(auto, using(std::proofs::lemmas::Bool::Decides::nat_tests), unfolding(crate::specs::Product::moves))]
    pub fn moves(&self, look: Look, u: usize, w: usize) -> bool
        ensures { result ≡ moves (automaton_of self.now) look.letter look.mark u w }
    {
        let from = self.spot(u);
        let to = self.spot(w);
        self.follows(from.state, look.letter, to.state)
            && to.phase == next_phase(from.phase, look.mark, self.is_accepting(from.state))
    }

    // Whether a node of the number `u` above is marked.
    #[tactic(auto, using(std::proofs::lemmas::Bool::Decides::nat_tests), unfolding(crate::specs::Product::marks))]
    pub fn marks(&self, u: usize) -> bool
        ensures { result ≡ marks (automaton_of self.now) u }
    {
        let spot = self.spot(u);
        spot.phase == 1 && self.is_accepting(spot.state)
    }

    // The state and the phase that the number `n` above stands for.
    fn spot(&self, n: usize) -> Spot
        ensures state { result.state ≡ state_of (automaton_of self.now) n }
        ensures phase { result.phase ≡ phase_of (automaton_of self.now) n }
    {
        let inner = n % self.width();
        Spot {
            state: inner / 2,
            phase: inner % 2,
        }
    }
}

// A state of the monitor, and whether it waits for a mark below (0) or for an accepting state (1).
#[derive(Clone, Copy)]
struct Spot {
    state: usize,
    // The phase is a number, since it is a part of the number that a place has above.
    phase: usize,
}

// The phase after `phase`, as a node that is marked or not is left in a state that is accepting or not.
fn next_phase(phase: usize, marked: bool, accepting: bool) -> usize
    ensures { result ≡ next_phase_lem phase marked accepting }
{
    match phase {
        0 => usize::from(marked),
        _ => usize::from(!accepting),
    }
}
