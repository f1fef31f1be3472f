// A wheel: a hierarchy worked out from sizes, one a level, as hours, minutes and seconds are.
// It has no tables of places, edges or leaves; each answer is computed from the sizes.
#![tactic(auto)]

ghost use Rattle.std.specs.Prelude.{◌≡◌, ◌≤◌, true, length, take};
ghost use Rattle.wheel.specs.Meaning.{sizes_right};

mod made;
mod questions;

// One structure a level, and in it as many items as the level's size; each item but those of the last level is a box
// around the next level's structure. The first `levels` of `sizes` count; they stand in an array, since a wheel is made
// without memory of its own and is copied.
#[derive(Clone, Copy)]
pub struct Wheel {
    sizes: [usize; 16],
    levels: usize,
    ghost room: { length sizes ≡ 16 },
    ghost few: { levels ≤ 16 },
    ghost right: { sizes_right (take levels sizes) ≡ true },
}
