// Why piles of monitors are right: theorems about every lawful hierarchy and all automata laid over it.
// A function here does nothing; its contract is the theorem that its name says.
#![tactic(auto)]

ghost use Rattle.piles.specs.OnePile.{OneMonitor, PileDepth, PileGood, PileLarge, PileLawful, PileSizes, SameMeaning};
ghost use Rattle.piles.specs.Witnesses.{PilesTell};

// The words of a product are the words below that its automaton accepts.
pub fn products_read_what_automata_accept()
    ensures { OneMonitor }
{}

// A marked state of a pile recurs exactly if the hierarchy at the bottom has a good run for the automata.
pub fn piles_recur_by_good_runs()
    ensures { PileGood }
{}

// A pile's sizes are the bottom's multiplied, and it is too large exactly if they exceed the bounds.
pub fn pile_sizes_multiply()
    ensures large { PileLarge }
    ensures sizes { PileSizes }
{}

// A pile keeps the laws of a hierarchy.
pub fn piles_are_lawful()
    ensures { PileLawful }
{}

// The reachable states of a pile have fewer boxes than the hierarchy at the bottom has structures.
pub fn piles_are_no_deeper_than_their_bottom()
    ensures { PileDepth }
{}

// Hierarchies of equal meaning recur alike.
pub fn equal_meanings_recur_alike()
    ensures { SameMeaning }
{}

// Small piles recur, or do not, as they should: the theorems speak of something.
pub fn small_piles_tell()
    ensures { PilesTell }
{}
