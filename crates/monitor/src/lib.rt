// Monitors: small Büchi automata, built edit by edit and laid over any hierarchy.
// What a hierarchy becomes with a monitor laid over it is defined here too.
#![tactic(auto)]

ghost use Rattle.std.specs.Prelude.{◌≤◌};

use crate::steps::Steps;

mod asks;
mod edits;
mod replay;
mod steps;

pub use replay::MonitorEdit;

// A Büchi automaton with 1 to 4 states, which are numbers from 0 on; 0 is initial. It reads letters, 0 to 15. It is copied,
// and has no memory of its own: its flags lie in an array.
#[derive(Clone, Copy)]
pub struct Monitor {
    states: usize,
    steps: Steps,
    accepting: [bool; 4],
    ghost some: { 1 ≤ states },
    ghost few: { states ≤ 4 },
}
