// The guide as a table: which tree, which row, which place. Reads and writes of single entries.
// Everything else writes the guide through these.
ghost use Rattle.std.specs.Prelude.{◌≡◌, ℕ, ◌<◌};
ghost use Rattle.guide.specs.Layout.{look, blank};
ghost use Rattle.judge.specs.Tables.{Stands, Position, Put, Others};
ghost use Rattle.judge.specs.Ring.{Aimed};
ghost use Rattle.judge.specs.Spread.{here, finished, child as child_entry};

use guide::{Entry, GuideRecord, Lane};

// Where a search takes place: the structure, and the tree and the row that it fills.
// It is written out at each use, and made by no function: a proof then sees the site's fields.
#[derive(Clone, Copy)]
pub struct Site {
    pub structure: usize,
    pub places: usize,
    pub lane: Lane,
    pub row: usize,
}

// Where an entry of a row that stands in memory is.
fn position(guide: &[GuideRecord], places: usize, row: usize, place: usize) -> usize
    requires stands { Stands guide.now places row }
    requires inside { place < places }
    ensures { Position guide.now places row place result }
{
    row * places + place
}

// An entry of a row that stands in memory: nothing is tested, since searches read more than they do anything else.
#[tactic(auto, unfolding(guide::specs::Layout::look))]
pub(crate) fn get(
    guide: &[GuideRecord],
    places: usize,
    lane: Lane,
    row: usize,
    place: usize,
) -> Entry
    requires stands { Stands guide.now places row }
    requires inside { place < places }
    ensures { result ≡ look guide.now places lane row place }
{
    guide[position(guide, places, row, place)].entry(lane)
}

// Writes an entry of one of the trees.
pub(crate) fn put(
    guide: &mut [GuideRecord],
    places: usize,
    lane: Lane,
    row: usize,
    place: usize,
    cell: Entry,
)
    requires stands { Stands guide.old places row }
    requires inside { place < places }
    ensures { Put (look guide.old places) (look guide.new places) lane row place cell }
{
    let at = position(guide, places, row, place);
    match lane {
        Lane::Plain => guide[at].plain = cell,
        Lane::Marked => guide[at].marked = cell,
        Lane::Up => guide[at].up = cell,
    }
}

// The entry of a place that is reached from `from`, by the exit `via` if that is a box.
pub(crate) fn child(from: usize, via: usize, depth: usize) -> Entry
    ensures { result ≡ child_entry from via depth }
{
    Entry {
        reached: true,
        depth,
        from,
        via,
        ..Entry::blank()
    }
}

// Sets the place of structure `row` to go to. The trees stay as they are.
pub(crate) fn set_aim(guide: &mut [GuideRecord], places: usize, row: usize, aim: usize)
    requires stands { Stands guide.old places row }
    requires some { 0 < places }
    ensures rest { look guide.new places ≡ look guide.old places }
    ensures aims { Aimed guide.old guide.new places row aim }
{
    let at = position(guide, places, row, 0);
    guide[at].aim = aim;
}

impl Site {
    // The site's entry at a place of its row.
    pub(crate) fn get(self, guide: &[GuideRecord], place: usize) -> Entry
        requires stands { Stands guide.now self.places self.row }
        requires inside { place < self.places }
        ensures { result ≡ here (look guide.now self.places) self place }
    {
        get(guide, self.places, self.lane, self.row, place)
    }

    // Writes the site's entry at a place.
    pub(crate) fn put(self, guide: &mut [GuideRecord], place: usize, cell: Entry)
        requires stands { Stands guide.old self.places self.row }
        requires inside { place < self.places }
        ensures { Put (look guide.old self.places) (look guide.new self.places) self.lane self.row place cell }
    {
        put(guide, self.places, self.lane, self.row, place, cell);
    }

    // Marks the place as done, and gives its entry as it was.
    pub(crate) fn finish(self, guide: &mut [GuideRecord], place: usize) -> Entry
        requires stands { Stands guide.old self.places self.row }
        requires inside { place < self.places }
        ensures was { result ≡ here (look guide.old self.places) self place }
        ensures done { Put (look guide.old self.places) (look guide.new self.places) self.lane self.row place (finished result) }
    {
        let old = self.get(guide, place);
        self.put(guide, place, Entry { done: true, ..old });
        old
    }

    // Makes the site's whole row blank.
    pub(crate) fn clear(self, guide: &mut [GuideRecord])
        requires stands { Stands guide.old self.places self.row }
        ensures others { Others (look guide.old self.places) (look guide.new self.places) self.lane self.row }
        ensures blank { (u : ℕ) → here (look guide.new self.places) self u ≡ blank }
    {
        for u in 0..self.places {
            self.put(guide, u, Entry::blank());
        }
    }
}
