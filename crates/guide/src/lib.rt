// The guide: what a judge writes into lent memory, and what a walk reads there.
// Records are plain numbers: memory in any state is a guide, though perhaps one that leads nowhere.
#![tactic(auto)]

ghost use Rattle.std.specs.Prelude.{◌≡◌, ◌+◌, ◌*◌, slice_index_or, MatchOption};
ghost use Rattle.guide.specs.Layout.{aim_of_lem, blank, blank_record_lem, lane_of, look};

// What a search tree holds of one place. A place that is not reached has a blank one, which is read like any other, since
// a walk climbs by whatever memory holds: so `reached` is a flag, and no option around the rest.
#[derive(Clone, Copy, PartialEq, Eq, Debug, Default)]
pub struct Entry {
    // the search has reached the place, and has followed its hops
    pub reached: bool,
    pub done: bool,
    // how many tree edges lead up to the root
    pub depth: usize,
    // the place before it in the tree, and, where that is a box, the exit by which the box is left
    pub from: usize,
    pub via: usize,
    // the hop to it meets a mark, and the place before it is in the plain tree
    pub seed: bool,
}

impl Entry {
    // A place that is not reached.
    pub fn blank() -> Entry
        ensures { result ≡ blank }
    {
        Entry::default()
    }
}

// One guide record. Row i of a guide has a record for each place of structure i, and one more row has the ring, which is
// the cycle found.
#[derive(Clone, Copy, PartialEq, Eq, Debug, Default)]
pub struct GuideRecord {
    pub plain: Entry,
    pub marked: Entry,
    // at place 0 only: whether and how structure i is reached from structure 0, and which of its places to go to;
    // these are the structure's, and lie in its place 0, so that a guide has no records but the places'
    pub up: Entry,
    pub aim: usize,
}

impl GuideRecord {
    // A record with which memory for a guide can be filled.
    pub fn blank() -> GuideRecord
        ensures { result ≡ blank_record_lem }
    {
        GuideRecord::default()
    }

    // The record's entry in one of the trees.
    pub fn entry(&self, lane: Lane) -> Entry
        ensures { result ≡ lane_of lane self.now }
    {
        match lane {
            Lane::Plain => self.plain,
            Lane::Marked => self.marked,
            Lane::Up => self.up,
        }
    }
}

// The trees of a guide: all places that are reached, and those reached after a mark; the third tells how each structure
// is reached.
#[derive(Clone, Copy, PartialEq, Eq, Debug)]
pub enum Lane {
    Plain,
    Marked,
    Up,
}

// The record at the place of a row; none past the end of memory. The memory from the row's start on is looked up first,
// so that a loop over places can do so once, and then asks of each place only whether there is a record more.
// The lent memory is one slice, and says nowhere how long its rows are: so `places` goes beside it.
fn record_at(guide: &[GuideRecord], places: usize, row: usize, place: usize) -> Option<&GuideRecord>
    ensures { MatchOption result (slice_index_or guide.now (row * places + place) blank_record_lem ≡ blank_record_lem) (λ r. r.now ≡ slice_index_or guide.now (row * places + place) blank_record_lem) }
{
    let start = row.checked_mul(places)?;
    guide.get(start..)?.get(place)
}

// What the trees hold of a place, where each row has so many places; past the end of a row or of memory a blank entry.
#[tactic(auto, unfolding(crate::specs::Layout::look))]
pub fn entry_at(guide: &[GuideRecord], places: usize, lane: Lane, row: usize, place: usize) -> Entry
    ensures { result ≡ look guide.now places lane row place }
{
    if place >= places {
        return Entry::blank();
    }
    match record_at(guide, places, row, place) {
        Some(record) => record.entry(lane),
        None => Entry::blank(),
    }
}

// The place of a structure to go to.
#[tactic(auto, unfolding(crate::specs::Layout::aim_of_lem))]
pub fn aim_at(guide: &[GuideRecord], places: usize, structure: usize) -> usize
    ensures { result ≡ aim_of_lem guide.now places structure }
{
    record_at(guide, places, structure, 0).map_or(0, |record| record.aim)
}
