// What is judged: a hierarchy, and its size.
ghost use Rattle.std.specs.Prelude.{◌≡◌, false};

use hierarchy::Hierarchy;

// A hierarchy that is not too large, and how many structures and places it has. All searches are its methods, and write
// the guide that they are lent. The guide is no field: each method would have to promise that it keeps the very reference.
// So what a guide must hold is asked by each method, as one fact.
// That a structure is there is asked too: a type of such numbers would have to name its hierarchy.
#[derive(Drop)]
pub struct Judged<'a, B: Hierarchy> {
    pub h: &'a B,
    pub structures: usize,
    pub places: usize,
    ghost fits: { (B.Hierarchy.meaning h.now).large ≡ false },
    ghost structures_are: { structures ≡ (B.Hierarchy.meaning h.now).structures },
    ghost places_are: { places ≡ (B.Hierarchy.meaning h.now).places },
}
