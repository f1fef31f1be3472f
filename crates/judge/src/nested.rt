// The nested search for a place that has a ring. Places are left in depth-first order; when a place is left, what its
// marked hops lead to is swept, and never swept again. Both searches use the row behind the structures' rows.
ghost use Rattle.std.specs.Prelude.{◌≡◌, ◌+◌, ◌<◌, None};
ghost use Rattle.hierarchy.specs.Meaning.{box};
ghost use Rattle.guide.specs.Layout.{look};
ghost use Rattle.guide.specs.declared.Lane.TheVariants.{Plain};
ghost use Rattle.judge.specs.Tables.{Stands, Others, Kept};
ghost use Rattle.judge.specs.Spread.{leads, SiteIn};
ghost use Rattle.judge.specs.Rows.{From, AllRows};
ghost use Rattle.judge.specs.Nested.{order_site, Fresh, FreshHop, Nested, SweptFrom, Visited, Sought};

use crate::judged::Judged;
use crate::spread::{Along, Leads};
use crate::table::{Site, child};
use guide::{GuideRecord, Lane, entry_at};
use hierarchy::{Hierarchy, Place};

// Where the search goes from a place.
#[derive(Clone, Copy)]
pub enum Visit {
    On(usize),
    // the place has a ring
    Found,
    // every place is left
    End,
}

impl<'a, B: Hierarchy> Judged<'a, B> {
    // A place that is not reached and that the hops lead to.
    fn fresh(&self, guide: &[GuideRecord], site: Site, hops: Leads) -> Option<usize>
        requires stands { Stands guide.now site.places site.row }
        requires places { site.places ≡ (B.Hierarchy.meaning self.now.h.now).places }
        ensures { Fresh (leads (B.Hierarchy.meaning self.now.h.now) site.structure hops) (look guide.now site.places) site result }
    {
        (0..site.places).find(
            |&w|
                requires { (Stands guide.now site.places site.row) × (w < site.places) }
            { !site.get(guide, w).reached && hops.lead_to(self.h, site.structure, w) },
        )
    }

    // A place that is not reached and that `v` leads to, by an exit that the box can be passed by.
    fn fresh_leave(
        &self,
        guide: &[GuideRecord],
        site: Site,
        v: usize,
        inner: usize,
    ) -> Option<usize>
        requires at { SiteIn (B.Hierarchy.meaning self.now.h.now) guide.now site self.now.structures }
        requires named { (B.Hierarchy.meaning self.now.h.now).place site.structure v ≡ box inner }
        requires behind { From (B.Hierarchy.meaning self.now.h.now) (site.structure + 1) (look guide.now site.places) }
        ensures { FreshHop (B.Hierarchy.meaning self.now.h.now) v (look guide.now site.places) site result }
    {
        // a loop, since a closure would have to repeat what `fresh` requires
        for by in 0..site.places {
            if self.passed(guide, site, Along::All, inner, by)
                && let Some(w) = self.fresh(guide, site, Leads::Leaves { from: v, by })
            {
                return Some(w);
            }
        }
        None
    }

    // A place that is not reached and that `v` has a hop to.
    fn fresh_hop(&self, guide: &[GuideRecord], site: Site, v: usize) -> Option<usize>
        requires at { SiteIn (B.Hierarchy.meaning self.now.h.now) guide.now site self.now.structures }
        requires behind { From (B.Hierarchy.meaning self.now.h.now) (site.structure + 1) (look guide.now site.places) }
        ensures { FreshHop (B.Hierarchy.meaning self.now.h.now) v (look guide.now site.places) site result }
    {
        match self.h.place(site.structure, v) {
            Place::Absent => None,
            Place::Node => self.fresh(guide, site, Leads::Edges { from: v }),
            Place::Box(inner) => self.fresh_leave(guide, site, v, inner),
        }
    }

    // Sweeps what the marked hops of `v` lead to, and tells whether `v` has a ring. Only a place that is reached after a mark
    // can have one.
    fn sweep(&self, guide: &mut [GuideRecord], structure: usize, v: usize) -> bool
        requires rows { AllRows (B.Hierarchy.meaning self.now.h.now) guide.old self.now.places self.now.structures }
        requires inside { structure < self.now.structures }
        requires nested { Nested (B.Hierarchy.meaning self.now.h.now) self.now.structures self.now.places structure v (look guide.old self.now.places) }
        requires spent { FreshHop (B.Hierarchy.meaning self.now.h.now) v (look guide.old self.now.places) (order_site self.now.structures self.now.places structure) None }
        ensures others { Others (look guide.old self.now.places) (look guide.new self.now.places) Plain self.now.structures }
        ensures answer { SweptFrom (B.Hierarchy.meaning self.now.h.now) self.now.structures self.now.places structure v (look guide.new self.now.places) result }
    {
        if !entry_at(guide, self.places, Lane::Marked, structure, v).reached {
            return false;
        }
        let site = Site {
            structure,
            places: self.places,
            lane: Lane::Plain,
            row: self.structures,
        };
        self.seed_from(guide, site, v, 1);
        self.spread(guide, site);
        site.get(guide, v).reached
    }

    // Leaves `v`, whose hops are all followed.
    fn close(&self, guide: &mut [GuideRecord], structure: usize, v: usize) -> Visit
        requires rows { AllRows (B.Hierarchy.meaning self.now.h.now) guide.old self.now.places self.now.structures }
        requires inside { structure < self.now.structures }
        requires nested { Nested (B.Hierarchy.meaning self.now.h.now) self.now.structures self.now.places structure v (look guide.old self.now.places) }
        requires spent { FreshHop (B.Hierarchy.meaning self.now.h.now) v (look guide.old self.now.places) (order_site self.now.structures self.now.places structure) None }
        ensures kept { Kept self.now.structures (look guide.old self.now.places) (look guide.new self.now.places) }
        ensures visited { Visited (B.Hierarchy.meaning self.now.h.now) self.now.structures self.now.places structure v (look guide.old self.now.places) (look guide.new self.now.places) result }
    {
        if self.sweep(guide, structure, v) {
            return Visit::Found;
        }
        let site = Site {
            structure,
            places: self.places,
            lane: Lane::Marked,
            row: self.structures,
        };
        let old = site.finish(guide, v);
        if v == self.h.entry(structure) {
            return Visit::End;
        }
        Visit::On(old.from)
    }

    // Goes from `v` to a place that is not reached, or leaves `v`.
    fn go_on(&self, guide: &mut [GuideRecord], structure: usize, v: usize) -> Visit
        requires rows { AllRows (B.Hierarchy.meaning self.now.h.now) guide.old self.now.places self.now.structures }
        requires inside { structure < self.now.structures }
        requires nested { Nested (B.Hierarchy.meaning self.now.h.now) self.now.structures self.now.places structure v (look guide.old self.now.places) }
        ensures kept { Kept self.now.structures (look guide.old self.now.places) (look guide.new self.now.places) }
        ensures visited { Visited (B.Hierarchy.meaning self.now.h.now) self.now.structures self.now.places structure v (look guide.old self.now.places) (look guide.new self.now.places) result }
    {
        let site = Site {
            structure,
            places: self.places,
            lane: Lane::Marked,
            row: self.structures,
        };
        let Some(w) = self.fresh_hop(guide, site, v) else {
            return self.close(guide, structure, v);
        };
        let depth = site.get(guide, v).depth + 1;
        site.put(guide, w, child(v, 0, depth));
        Visit::On(w)
    }

    // Looks for a place of the structure that has a ring, and that the structure's entry reaches.
    pub(crate) fn seek(&self, guide: &mut [GuideRecord], structure: usize) -> Option<usize>
        requires rows { AllRows (B.Hierarchy.meaning self.now.h.now) guide.old self.now.places self.now.structures }
        requires inside { structure < self.now.structures }
        ensures kept { Kept self.now.structures (look guide.old self.now.places) (look guide.new self.now.places) }
        ensures sought { Sought (B.Hierarchy.meaning self.now.h.now) structure result }
    {
        let order = Site {
            structure,
            places: self.places,
            lane: Lane::Marked,
            row: self.structures,
        };
        let swept = Site {
            lane: Lane::Plain,
            ..order
        };
        order.clear(guide);
        swept.clear(guide);
        let top = self.h.entry(structure);
        order.put(guide, top, child(top, 0, 0));
        let mut v = top;
        loop {
            match self.go_on(guide, structure, v) {
                Visit::On(w) => v = w,
                Visit::Found => return Some(v),
                Visit::End => return None,
            }
        }
    }
}
