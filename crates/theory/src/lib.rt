// Why one search of each structure is enough: theorems about every lawful hierarchy.
// A function here does nothing; its contract is the theorem that its name says.
#![tactic(auto)]

ghost use Rattle.theory.specs.Innermost.{FlatFormReadFromInside, InnermostLooks, ReachableAreFlat, SameStates};
ghost use Rattle.theory.specs.OneSearch.{Marking, Passing, Reaching, Recurring, Running, Shallow};
ghost use Rattle.theory.specs.Tables.{Tabled, TabledMarks};
ghost use Rattle.theory.specs.Witnesses.{dot, pair, Tells};

// Hops inside each structure alone decide what is reachable, passable, marked and recurring in the flat form.
pub fn one_search_suffices()
    ensures reaching { Reaching }
    ensures passing { Passing }
    ensures marking { Marking }
    ensures recurring { Recurring }
{}

// A reachable marked state reaches itself exactly if some endless run is marked without end.
pub fn recurring_is_running()
    ensures running { Running }
{}

// A reachable state has fewer boxes than there are structures.
pub fn reachable_states_are_shallow()
    ensures shallow { Shallow }
{}

// The flat form reads the same from the outermost box inwards and from the innermost structure outwards.
pub fn flat_form_reads_the_same_from_inside()
    ensures states { SameStates }
    ensures transitions { FlatFormReadFromInside }
    ensures looks { InnermostLooks }
    ensures reachable { ReachableAreFlat }
{}

// Tables that are right row by row, each over the rows behind it, tell what hops reach.
pub fn tables_right_by_rows_are_right()
    ensures reached { Tabled }
    ensures marks { TabledMarks }
{}

// Whether the dot recurs: one marked node, with an edge to itself if it turns. The theorems speak of something.
pub fn dot_recurs(turns: bool) -> bool
    ensures { Tells (dot turns) result }
{
    turns
}

// Whether the pair recurs: two boxes share an inner structure, the first leads to the second, and the second leads back
// if the pair returns. An exit that went on in the context of the other box would make every pair recur.
pub fn pair_recurs(returns: bool) -> bool
    ensures { Tells (pair returns) result }
{
    returns
}
