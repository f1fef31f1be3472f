// The ring: a marked hop from a reached place, and hops back to that place, in a known structure.
// Its place is the row behind the structures' rows.
ghost use Rattle.std.specs.Prelude.{◌≡◌, ◌<◌, true};
ghost use Rattle.guide.specs.Layout.{look, aim_of_lem};
ghost use Rattle.guide.specs.declared.Lane.TheVariants.{Plain};
ghost use Rattle.judge.specs.Tables.{Stands, Others, Kept};
ghost use Rattle.judge.specs.Rows.{AllRows};
ghost use Rattle.judge.specs.Known.{known, AllKnown};
ghost use Rattle.judge.specs.Ring.{Back, RingRow, RingIn, RingAny, Points};

use crate::judged::Judged;
use crate::table::{Site, set_aim};
use guide::{GuideRecord, Lane, entry_at};
use hierarchy::Hierarchy;

// The structure that has the ring, and the place where the ring starts.
#[derive(Clone, Copy)]
pub struct Ring {
    pub home: usize,
    pub start: usize,
}

impl<'a, B: Hierarchy> Judged<'a, B> {
    // Draws the ring of `u`, if it has one.
    fn draw_ring(&self, guide: &mut [GuideRecord], structure: usize, u: usize)
        requires rows { AllRows (B.Hierarchy.meaning self.now.h.now) guide.old self.now.places self.now.structures }
        requires below { u < self.now.places }
        ensures others { Others (look guide.old self.now.places) (look guide.new self.now.places) Plain self.now.structures }
        ensures row { Back (B.Hierarchy.meaning self.now.h.now) structure u → RingRow (B.Hierarchy.meaning self.now.h.now) structure u (look guide.new self.now.places Plain self.now.structures) }
    {
        let site = Site {
            structure,
            places: self.places,
            lane: Lane::Plain,
            row: self.structures,
        };
        site.clear(guide);
        self.seed_from(guide, site, u, 1);
        self.spread(guide, site);
    }

    // Draws the ring of a place of the structure, if one has a ring.
    fn ring_in(&self, guide: &mut [GuideRecord], structure: usize) -> Option<usize>
        requires rows { AllRows (B.Hierarchy.meaning self.now.h.now) guide.old self.now.places self.now.structures }
        requires inside { structure < self.now.structures }
        ensures kept { Kept self.now.structures (look guide.old self.now.places) (look guide.new self.now.places) }
        ensures answer { RingIn (B.Hierarchy.meaning self.now.h.now) structure (look guide.new self.now.places) result }
    {
        let u = self.seek(guide, structure)?;
        self.draw_ring(guide, structure, u);
        Some(u)
    }

    // Looks for a ring in the known structures.
    pub(crate) fn ring_any(&self, guide: &mut [GuideRecord]) -> Option<Ring>
        requires rows { AllRows (B.Hierarchy.meaning self.now.h.now) guide.old self.now.places self.now.structures }
        requires knows { AllKnown (B.Hierarchy.meaning self.now.h.now) (look guide.old self.now.places) }
        ensures kept { Kept self.now.structures (look guide.old self.now.places) (look guide.new self.now.places) }
        ensures answer { RingAny (B.Hierarchy.meaning self.now.h.now) (look guide.new self.now.places) result }
    {
        // a loop, since after a chain whose closure writes the guide nothing is known of the guide
        for i in 0..self.structures {
            if self.is_known(guide, i)
                && let Some(start) = self.ring_in(guide, i)
            {
                return Some(Ring { home: i, start });
            }
        }
        None
    }

    // Sets the aims along the way from structure 0 to where the ring starts.
    pub(crate) fn point(&self, guide: &mut [GuideRecord], ring: Ring)
        requires stands { Stands guide.old self.now.places self.now.structures }
        requires home { ring.home < self.now.structures }
        requires known { known (look guide.old self.now.places) ring.home ≡ true }
        requires knows { AllKnown (B.Hierarchy.meaning self.now.h.now) (look guide.old self.now.places) }
        ensures rest { look guide.new self.now.places ≡ look guide.old self.now.places }
        ensures points { Points (look guide.new self.now.places) (aim_of_lem guide.new self.now.places) ring }
    {
        let mut inner = ring.home;
        while inner > 0 {
            let up = entry_at(guide, self.places, Lane::Up, inner, 0);
            set_aim(guide, self.places, up.from, up.via);
            inner = up.from;
        }
        set_aim(guide, self.places, ring.home, ring.start);
    }
}
