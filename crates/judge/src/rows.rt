// The rows of the structures: what each entry reaches, and what it reaches after a mark.
// They are filled from the last structure up, since a box names a later structure than its own.
ghost use Rattle.std.specs.Prelude.{◌+◌, ◌<◌};
ghost use Rattle.guide.specs.Layout.{look};
ghost use Rattle.guide.specs.declared.Lane.TheVariants.{Plain, Marked};
ghost use Rattle.judge.specs.Tables.{Stands, Others};
ghost use Rattle.judge.specs.Spread.{SiteIn};
ghost use Rattle.judge.specs.Rows.{PlainRow, From, MarkedRow, Behind, AllRows};
ghost use Rattle.judge.specs.Seeds.{SownFrom, SownBelow, marked_site};

use crate::judged::Judged;
use crate::spread::Along;
use crate::table::{Site, child};
use guide::{GuideRecord, Lane, entry_at};
use hierarchy::Hierarchy;

impl<'a, B: Hierarchy> Judged<'a, B> {
    // Fills the row of what the structure's entry reaches.
    fn plain_row(&self, guide: &mut [GuideRecord], structure: usize)
        requires stands { Stands guide.old self.now.places self.now.structures }
        requires inside { structure < self.now.structures }
        requires behind { From (B.Hierarchy.meaning self.now.h.now) (structure + 1) (look guide.old self.now.places) }
        ensures others { Others (look guide.old self.now.places) (look guide.new self.now.places) Plain structure }
        ensures row { PlainRow (B.Hierarchy.meaning self.now.h.now) structure (look guide.new self.now.places Plain structure) }
    {
        let site = Site {
            structure,
            places: self.places,
            lane: Lane::Plain,
            row: structure,
        };
        site.clear(guide);
        site.put(guide, self.h.entry(structure), child(0, 0, 0));
        self.spread(guide, site);
    }

    // Reaches the targets of the marked hops of `v`.
    pub(crate) fn seed_from(&self, guide: &mut [GuideRecord], site: Site, v: usize, depth: usize)
        requires at { SiteIn (B.Hierarchy.meaning self.now.h.now) guide.old site self.now.structures }
        requires behind { Behind (B.Hierarchy.meaning self.now.h.now) (site.structure + 1) (look guide.old site.places) }
        ensures { SownFrom (B.Hierarchy.meaning self.now.h.now) site v depth (look guide.old site.places) (look guide.new site.places) }
    {
        self.expand(guide, site, Along::Marks, v, depth);
    }

    // Reaches the targets of the marked hops of all that the structure's entry reaches.
    fn seed_all(&self, guide: &mut [GuideRecord], structure: usize)
        requires stands { Stands guide.old self.now.places self.now.structures }
        requires inside { structure < self.now.structures }
        requires behind { Behind (B.Hierarchy.meaning self.now.h.now) (structure + 1) (look guide.old self.now.places) }
        requires plain { PlainRow (B.Hierarchy.meaning self.now.h.now) structure (look guide.old self.now.places Plain structure) }
        ensures { SownBelow (B.Hierarchy.meaning self.now.h.now) (marked_site self.now.places structure) self.now.places (look guide.old self.now.places) (look guide.new self.now.places) }
    {
        let site = Site {
            structure,
            places: self.places,
            lane: Lane::Marked,
            row: structure,
        };
        for v in 0..self.places {
            let found = entry_at(guide, self.places, Lane::Plain, structure, v);
            if found.reached {
                self.seed_from(guide, site, v, found.depth + 1);
            }
        }
    }

    // Fills the row of what the structure's entry reaches after a mark.
    fn marked_row(&self, guide: &mut [GuideRecord], structure: usize)
        requires stands { Stands guide.old self.now.places self.now.structures }
        requires inside { structure < self.now.structures }
        requires behind { Behind (B.Hierarchy.meaning self.now.h.now) (structure + 1) (look guide.old self.now.places) }
        requires plain { PlainRow (B.Hierarchy.meaning self.now.h.now) structure (look guide.old self.now.places Plain structure) }
        ensures others { Others (look guide.old self.now.places) (look guide.new self.now.places) Marked structure }
        ensures row { MarkedRow (B.Hierarchy.meaning self.now.h.now) structure (look guide.new self.now.places Plain structure) (look guide.new self.now.places Marked structure) }
    {
        let site = Site {
            structure,
            places: self.places,
            lane: Lane::Marked,
            row: structure,
        };
        site.clear(guide);
        self.seed_all(guide, structure);
        self.spread(guide, site);
    }

    // Fills both lanes of every structure's row.
    pub(crate) fn fill(&self, guide: &mut [GuideRecord])
        requires stands { Stands guide.old self.now.places self.now.structures }
        ensures { AllRows (B.Hierarchy.meaning self.now.h.now) guide.new self.now.places self.now.structures }
    {
        for i in (0..self.structures).rev() {
            self.plain_row(guide, i);
            self.marked_row(guide, i);
        }
    }
}
