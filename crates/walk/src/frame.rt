// One level of a walk: where it stands in one structure, and what it is on its way to.
// Plain numbers: frames in any state may be lent.
ghost use Rattle.std.specs.Prelude.{◌≡◌};
ghost use Rattle.walk.specs.Levels.{blank_frame, is_pass_lem};

// What a level is on its way to.
#[derive(Clone, Copy, PartialEq, Eq, Debug, Default)]
pub enum Way {
    // an exit, by which its structure is left
    #[default]
    Pass,
    // an exit, past a mark
    PassMarked,
    // the place of its structure from which the ring is reached
    Lead,
    // the place where the ring starts, once round
    Ring,
}

impl Way {
    pub(crate) fn is_pass(self) -> bool
        ensures { result ≡ is_pass_lem self }
    {
        matches!(self, Way::Pass | Way::PassMarked)
    }
}

#[derive(Clone, Copy, PartialEq, Eq, Debug, Default)]
pub struct Frame {
    // where the level stands: a box, but for the innermost level, which stands at a node
    pub place: usize,
    pub way: Way,
    // the place it goes to, and how many edges of the search tree are left to it
    pub goal: usize,
    pub left: usize,
}

impl Frame {
    // A frame to lend: what it holds does not matter.
    pub fn blank() -> Frame
        ensures { result ≡ blank_frame }
    {
        Frame::default()
    }
}
