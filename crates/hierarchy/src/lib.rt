// The interface below everything: a hierarchy, asked by questions, and the refusals that all calls share.
// Charts, wheels and monitor layers implement it; the judge and the walk know nothing else.
#![tactic(auto)]

ghost use Rattle.std.specs.Prelude.{◌≡◌};
ghost use Rattle.hierarchy.specs.Answers.{place_told, size_told, look_told};
ghost use Rattle.hierarchy.specs.Meaning.{Meaning, Lawful};

pub mod refusal;

pub use refusal::Refusal;

// What a place is.
#[derive(Clone, Copy, PartialEq, Eq, Debug)]
pub enum Place {
    Absent,
    Node,
    // a box, and the number of the structure that it names
    Box(usize),
}

// How large a hierarchy is: its structures, and the place numbers that each has.
#[derive(Clone, Copy, PartialEq, Eq, Debug)]
pub struct Size {
    pub structures: usize,
    pub places: usize,
}

// A place's letter, 0 to 15, and its mark.
#[derive(Clone, Copy, PartialEq, Eq, Debug, Default)]
pub struct Look {
    pub letter: u8,
    pub mark: bool,
}

// Structures of places, nested by boxes. An implementation gives its meaning, proves the laws of it, and answers each
// question by it; asking alters nothing.
pub trait Hierarchy {
    ghost meaning: { Self → Meaning };

    ghost lawful: { (x : Self) → Lawful (meaning x) };

    // None of a hierarchy that is too large to be judged.
    fn size(&self) -> Option<Size>
        ensures { result ≡ size_told (meaning self.now) };

    // What the place `p` of structure `i` is.
    fn place(&self, i: usize, p: usize) -> Place
        ensures { result ≡ place_told ((meaning self.now).place i p) };

    fn entry(&self, i: usize) -> usize
        ensures { result ≡ (meaning self.now).entry i };

    fn is_exit(&self, i: usize, p: usize) -> bool
        ensures { result ≡ (meaning self.now).exits i p };

    fn look(&self, i: usize, p: usize) -> Look
        ensures { result ≡ look_told (meaning self.now) i p };

    // Whether an edge goes from the node `p` to the place `w`.
    fn has_edge(&self, i: usize, p: usize, w: usize) -> bool
        ensures { result ≡ (meaning self.now).edge i p w };

    // Whether a leave goes from the box `b`, by the exit `e` of its inner structure, to the place `w`.
    fn has_leave(&self, i: usize, b: usize, e: usize, w: usize) -> bool
        ensures { result ≡ (meaning self.now).leave i b e w };
}
