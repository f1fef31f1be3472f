// Why a call is refused. Each refusal has a number, by which programs and files tell it.
// A refused call alters nothing.
ghost use Rattle.std.specs.Prelude.{◌≡◌, Some};
ghost use Rattle.hierarchy.specs.Refusals.{refusal_number, refusal_text};

use std::fmt;

#[derive(Clone, Copy, PartialEq, Eq, Debug)]
pub enum Refusal {
    TooManyStructures = 1,
    ReservedLookBit = 2,
    BoxNotBelow = 3,
    BadStepLetter = 4,
    UnknownKind = 5,
    CutRecord = 6,
    TooLittleMemory = 7,
    WheelSizes = 8,
    FileTooLong = 9,
    NoStructure = 20,
    NoPlace = 21,
    NotANode = 22,
    NotABox = 23,
    NotAnExit = 24,
    Full = 25,
    AlreadyThere = 26,
    NotThere = 27,
    TooLarge = 28,
    NoTransition = 29,
    BeginMisplaced = 30,
}

impl Refusal {
    pub fn number(self) -> u8
        ensures { result ≡ refusal_number self }
    {
        self as u8
    }

    // What is wrong, in words.
    fn text(self) -> &'static str
        ensures { result.now ≡ refusal_text self }
    {
        match self {
            Refusal::TooManyStructures => "a chart has 1 to 32 structures",
            Refusal::ReservedLookBit => "bits 4 to 6 of a look must be zero",
            Refusal::BoxNotBelow => "a box must name a structure with a higher number than its own",
            Refusal::BadStepLetter =>
                "care and value must be at most 15, and value must have no bit outside care",
            Refusal::UnknownKind => "unknown kind of record",
            Refusal::CutRecord => "the file ends inside a record",
            Refusal::TooLittleMemory => "too few guide records, frames or output bytes",
            Refusal::WheelSizes => "a wheel has 1 to 16 levels, each of size 1 to 1022",
            Refusal::FileTooLong => "a chart file has at most 16384 bytes",
            Refusal::NoStructure => "there is no structure of that number",
            Refusal::NoPlace => "there is no place or monitor state of that number",
            Refusal::NotANode => "that place is not a node",
            Refusal::NotABox => "that place is not a box",
            Refusal::NotAnExit => "that is not an exit of the box's inner structure",
            Refusal::Full => "there is no room for one more",
            Refusal::AlreadyThere => "it is there already",
            Refusal::NotThere => "it is not there to erase",
            Refusal::TooLarge => "the hierarchy is too large",
            Refusal::NoTransition =>
                "the walk stands on no state, or the guide names no transition from it",
            Refusal::BeginMisplaced => "a file begins with one begin, and has no other",
        }
    }
}

impl fmt::Display for Refusal {
    ghost output = { λ x. Some (refusal_text x) };

    fn fmt<W: fmt::Write>(&self, f: &mut fmt::Formatter<W>) -> fmt::Result {
        let text = self.text();
        write!(f, "{text}")
    }
}
