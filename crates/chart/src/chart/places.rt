// The edits of places: a node or a box more, a node made an exit, a node's look.
ghost use Rattle.std.specs.Prelude.{◌≡◌, ◌<◌, true, false, not, nat_lt, [], ◌∷◌, length, is_ok, Some};
ghost use Rattle.std.specs.Result.{result_err};
ghost use Rattle.chart.specs.Charts.{sheet};
ghost use Rattle.sheet.specs.Sheet.{at, spot, node?, exit?, look};
ghost use Rattle.sheet.specs.Laws.{later};
ghost use Rattle.sheet.specs.Changes.{changed, with_place_lem, with_spot_lem};
ghost use Rattle.sheet.specs.declared.Spot.TheVariants.{Node};
ghost use Rattle.hierarchy.specs.Refusals.{first};
ghost use Rattle.hierarchy.specs.declared.refusal.Refusal.TheVariants.{NoStructure, Full};
ghost use Rattle.sheet.specs.Edits as edit;

use crate::chart::Chart;
use crate::row::PLACES;
use hierarchy::Refusal;
use sheet::Spot;

// The bits of a look that are reserved.
const RESERVED: u8 = 0x70;

impl Chart {
    // Adds a node of a look to structure `i`, and answers its number.
    pub fn node(&mut self, i: usize, look: u8) -> Result<usize, Refusal>
        ensures answer { result ≡ (edit.node (sheet self.old) i look).answer }
        ensures after { sheet self.new ≡ (edit.node (sheet self.old) i look).sheet }
        ensures unchanged { is_ok result ≡ false → self.new ≡ self.old }
    {
        self.check_node(i, look)?;
        Ok(self.add(i, Spot::Node { look, exit: false }))
    }

    // Adds a box that names the structure `inner` to structure `i`, and answers its number.
    pub fn add_box(&mut self, i: usize, inner: usize) -> Result<usize, Refusal>
        ensures answer { result ≡ (edit.box (sheet self.old) i inner).answer }
        ensures after { sheet self.new ≡ (edit.box (sheet self.old) i inner).sheet }
        ensures unchanged { is_ok result ≡ false → self.new ≡ self.old }
    {
        self.check_box(i, inner)?;
        Ok(self.add(i, Spot::Box { inner }))
    }

    // Makes the node `p` of structure `i` an exit.
    pub fn exit(&mut self, i: usize, p: usize) -> Result<(), Refusal>
        ensures answer { result ≡ (edit.exit (sheet self.old) i p).answer }
        ensures after { sheet self.new ≡ (edit.exit (sheet self.old) i p).sheet }
        ensures unchanged { is_ok result ≡ false → self.new ≡ self.old }
    {
        self.check_exit(i, p)?;
        let look = self.row(i).look(p);
        self.write_node(i, p, look, true);
        Ok(())
    }

    // Gives the node `p` of structure `i` a look.
    pub fn look(&mut self, i: usize, p: usize, look: u8) -> Result<(), Refusal>
        ensures answer { result ≡ (edit.relook (sheet self.old) i p look).answer }
        ensures after { sheet self.new ≡ (edit.relook (sheet self.old) i p look).sheet }
        ensures unchanged { is_ok result ≡ false → self.new ≡ self.old }
    {
        self.check_look(i, p, look)?;
        let exit = self.row(i).is_exit(p);
        self.write_node(i, p, look, exit);
        Ok(())
    }

    // One place more, and its number.
    fn add(&mut self, i: usize, spot: Spot) -> usize
        requires within { i < length (sheet self.old) }
        requires room { length (at (sheet self.old) i).places < 16 }
        requires order { later (length (sheet self.old)) i (Some spot) ≡ true }
        ensures number { result ≡ length (at (sheet self.old) i).places }
        ensures after { sheet self.new ≡ changed (sheet self.old) i (with_place_lem spot) }
    {
        let row = self.row(i);
        let p = row.size();
        self.write(i, row.with_place(spot));
        p
    }

    // Another node at a node's place, which stays an exit if it is one.
    fn write_node(&mut self, i: usize, p: usize, look: u8, exit: bool)
        requires within { i < length (sheet self.old) }
        requires noded { node? (spot (sheet self.old) i p) ≡ true }
        requires stays { exit? (spot (sheet self.old) i p) ≡ true → exit ≡ true }
        ensures { sheet self.new ≡ changed (sheet self.old) i (with_spot_lem p (Node look exit)) }
    {
        let row = self.row(i);
        self.write(i, row.with_spot(p, Spot::Node { look, exit }));
    }

    fn check_node(&self, i: usize, look: u8) -> Result<(), Refusal>
        ensures { result_err result ≡ first (edit.node_refusals (sheet self.now) i look) }
    {
        if look & RESERVED != 0 {
            return Err(Refusal::ReservedLookBit);
        }
        self.check_room(i)
    }

    fn check_box(&self, i: usize, inner: usize) -> Result<(), Refusal>
        ensures { result_err result ≡ first (edit.box_refusals (sheet self.now) i inner) }
    {
        if inner <= i {
            return Err(Refusal::BoxNotBelow);
        }
        if inner >= self.structures() {
            return Err(Refusal::NoStructure);
        }
        self.check_room(i)
    }

    // Whether structure `i` is there and has room for one place more.
    fn check_room(&self, i: usize) -> Result<(), Refusal>
        ensures { result_err result ≡ first ((not (nat_lt i (length (sheet self.now))), NoStructure) ∷ (not (nat_lt (length (at (sheet self.now) i).places) 16), Full) ∷ []) }
    {
        let row = self.find_row(i).ok_or(Refusal::NoStructure)?;
        if row.size() >= PLACES {
            return Err(Refusal::Full);
        }
        Ok(())
    }

    fn check_exit(&self, i: usize, p: usize) -> Result<(), Refusal>
        ensures { result_err result ≡ first (edit.exit_refusals (sheet self.now) i p) }
    {
        let row = self.find_row(i).ok_or(Refusal::NoStructure)?;
        match row.spot(p).ok_or(Refusal::NoPlace)? {
            Spot::Node { exit: false, .. } => Ok(()),
            Spot::Node { exit: true, .. } => Err(Refusal::AlreadyThere),
            Spot::Box { .. } => Err(Refusal::NotANode),
        }
    }

    fn check_look(&self, i: usize, p: usize, look: u8) -> Result<(), Refusal>
        ensures { result_err result ≡ first (edit.look_refusals (sheet self.now) i p look) }
    {
        if look & RESERVED != 0 {
            return Err(Refusal::ReservedLookBit);
        }
        let row = self.find_row(i).ok_or(Refusal::NoStructure)?;
        match row.spot(p).ok_or(Refusal::NoPlace)? {
            Spot::Node { .. } => Ok(()),
            Spot::Box { .. } => Err(Refusal::NotANode),
        }
    }
}
