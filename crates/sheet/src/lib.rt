// The sheet: what a chart is by its edits alone, and the edits as values.
// The meaning stands in specs; here are the values that edits and sheets are made of.
#![tactic(auto)]

ghost use Rattle.sheet.specs.Least.{LeastRefusalFirst};

// What stands at a place of a chart: a node with its look, an exit or not, or a box with its inner structure's number.
#[derive(Clone, Copy, PartialEq, Eq, Debug)]
pub enum Spot {
    Node { look: u8, exit: bool },
    Box { inner: usize },
}

// An edit with its arguments: `i` is the structure it changes.
#[derive(Clone, Copy, PartialEq, Eq, Debug)]
pub enum Edit {
    Node {
        i: usize,
        look: u8,
    },
    Box {
        i: usize,
        inner: usize,
    },
    Exit {
        i: usize,
        p: usize,
    },
    Look {
        i: usize,
        p: usize,
        look: u8,
    },
    Edge {
        i: usize,
        p: usize,
        w: usize,
    },
    Leave {
        i: usize,
        b: usize,
        e: usize,
        w: usize,
    },
    Unedge {
        i: usize,
        p: usize,
        w: usize,
    },
    Unleave {
        i: usize,
        b: usize,
        e: usize,
        w: usize,
    },
}

// Of several refusals of one edit the least number is given.
pub fn least_refusal_first()
    ensures { LeastRefusalFirst }
{}
