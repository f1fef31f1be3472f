// Monitors laid over any hierarchy, which gives a hierarchy again: one as a layer, or any number of them as a pile.
// What is below is lent, and can be changed again when what was laid over it is gone.
#![tactic(auto)]

mod layer;
mod pile;
mod spread;

pub use layer::Layer;
pub use pile::Pile;
