// The walk: it shows an endless run of a hierarchy's flat form, one transition at a time, by the guide that a judge left.
// Guide and frames are lent memory: in whatever state they are, what a walk shows is a transition.
#![tactic(auto)]

ghost use Rattle.walk.specs.Walks.{Walking};

pub mod frame;
mod level;
mod read;
mod stand;
pub mod steps;

pub use frame::{Frame, Way};
pub use steps::journey::walk_on;
pub use steps::{Walk, start, walkable};

// The walk by a good guide is an endless run, and it meets marked states without end.
pub fn walking()
    ensures { Walking }
{}
