// One search of a structure's places: from what is reached, along its hops, until nothing is left to follow.
// A box is passed by the exits that its inner entry reaches, as the inner structure's rows tell, and by no others.
ghost use Rattle.std.specs.Prelude.{◌≡◌, ◌<◌, ◌≤◌};
ghost use Rattle.hierarchy.specs.Meaning.{box};
ghost use Rattle.guide.specs.Layout.{look};
ghost use Rattle.judge.specs.Tables.{Stands};
ghost use Rattle.judge.specs.Spread.{here, leads, Adds, Fit, SiteIn};
ghost use Rattle.judge.specs.Follows.{entry_of, counts, met, passes, Expands};
ghost use Rattle.judge.specs.Search.{Open, Picked, NothingOpen, Turned, Spreads, Orderly, Closed};

use crate::judged::Judged;
use crate::table::{Site, child, get};
use guide::{Entry, GuideRecord, Lane};
use hierarchy::{Hierarchy, Place};

// Which hops a search follows.
#[derive(Clone, Copy)]
pub enum Along {
    All,
    // those that meet a mark; what they reach are seeds
    Marks,
}

impl Along {
    // The entry of a place that is reached from `from`.
    fn entry(self, from: usize, via: usize, depth: usize) -> Entry
        ensures { result ≡ entry_of self from via depth }
    {
        Entry {
            seed: matches!(self, Along::Marks),
            ..child(from, via, depth)
        }
    }
}

// Hops that a search asks for at once.
#[derive(Clone, Copy)]
pub enum Leads {
    // the edges from a node
    Edges { from: usize },
    // the leaves of a box by one exit
    Leaves { from: usize, by: usize },
}

impl Leads {
    // Whether one of these hops leads to the place `w` of the structure.
    pub(crate) fn lead_to<B: Hierarchy>(self, h: &B, structure: usize, w: usize) -> bool
        ensures { result ≡ leads (B.Hierarchy.meaning h.now) structure self w }
    {
        match self {
            Leads::Edges { from } => h.has_edge(structure, from, w),
            Leads::Leaves { from, by } => h.has_leave(structure, from, by, w),
        }
    }
}

impl<'a, B: Hierarchy> Judged<'a, B> {
    // Reaches the places that the hops lead to. Those that are reached already need no question.
    #[inline(always)]
    fn follow(&self, guide: &mut [GuideRecord], site: Site, hops: Leads, cell: Entry)
        requires stands { Stands guide.old site.places site.row }
        requires places { site.places ≡ (B.Hierarchy.meaning self.now.h.now).places }
        ensures { Adds site cell (leads (B.Hierarchy.meaning self.now.h.now) site.structure hops) (look guide.old site.places) (look guide.new site.places) }
    {
        let h = self.h;
        for w in 0..site.places {
            if !site.get(guide, w).reached && hops.lead_to(h, site.structure, w) {
                site.put(guide, w, cell);
            }
        }
    }

    // Whether the inner entry reaches the exit, or reaches it after a mark, or at one.
    fn met(&self, guide: &[GuideRecord], site: Site, along: Along, inner: usize, by: usize) -> bool
        requires stands { Stands guide.now site.places inner }
        requires inside { by < site.places }
        ensures { result ≡ met (B.Hierarchy.meaning self.now.h.now) (look guide.now site.places) along inner by }
    {
        let plain = get(guide, site.places, Lane::Plain, inner, by).reached;
        match along {
            Along::All => plain,
            Along::Marks => {
                get(guide, site.places, Lane::Marked, inner, by).reached
                    || (plain && self.h.look(inner, by).mark)
            }
        }
    }

    // Whether a box that names `inner` can be passed by `by`.
    pub(crate) fn passed(
        &self,
        guide: &[GuideRecord],
        site: Site,
        along: Along,
        inner: usize,
        by: usize,
    ) -> bool
        requires stands { Stands guide.now site.places inner }
        requires inside { by < site.places }
        ensures { result ≡ passes (B.Hierarchy.meaning self.now.h.now) (look guide.now site.places) along inner by }
    {
        self.met(guide, site, along, inner, by) && self.h.is_exit(inner, by)
    }

    // Leaves the box `v` by each exit that it can be passed by.
    #[inline(always)]
    fn expand_box(
        &self,
        guide: &mut [GuideRecord],
        site: Site,
        along: Along,
        v: usize,
        inner: usize,
        depth: usize,
    )
        requires at { SiteIn (B.Hierarchy.meaning self.now.h.now) guide.old site self.now.structures }
        requires named { (B.Hierarchy.meaning self.now.h.now).place site.structure v ≡ box inner }
        ensures { Expands (B.Hierarchy.meaning self.now.h.now) site along v depth (look guide.old site.places) (look guide.new site.places) }
    {
        for by in 0..site.places {
            if self.passed(guide, site, along, inner, by) {
                self.follow(
                    guide,
                    site,
                    Leads::Leaves { from: v, by },
                    along.entry(v, by, depth),
                );
            }
        }
    }

    // Whether the edges from `v` count.
    fn counts(&self, along: Along, structure: usize, v: usize) -> bool
        ensures { result ≡ counts along ((B.Hierarchy.meaning self.now.h.now).mark structure v) }
    {
        match along {
            Along::All => true,
            Along::Marks => self.h.look(structure, v).mark,
        }
    }

    // Follows the hops of `v` that count. What they lead to is reached, at the depth given.
    #[inline(always)]
    pub(crate) fn expand(
        &self,
        guide: &mut [GuideRecord],
        site: Site,
        along: Along,
        v: usize,
        depth: usize,
    )
        requires at { SiteIn (B.Hierarchy.meaning self.now.h.now) guide.old site self.now.structures }
        ensures { Expands (B.Hierarchy.meaning self.now.h.now) site along v depth (look guide.old site.places) (look guide.new site.places) }
    {
        match self.h.place(site.structure, v) {
            Place::Absent => {}
            Place::Node => {
                if self.counts(along, site.structure, v) {
                    self.follow(
                        guide,
                        site,
                        Leads::Edges { from: v },
                        along.entry(v, 0, depth),
                    );
                }
            }
            Place::Box(inner) => self.expand_box(guide, site, along, v, inner, depth),
        }
    }

    // Takes `v` as done, and follows its hops.
    fn turn(&self, guide: &mut [GuideRecord], site: Site, v: usize)
        requires at { SiteIn (B.Hierarchy.meaning self.now.h.now) guide.old site self.now.structures }
        requires picked { Open (look guide.old site.places) site v }
        requires deep { (here (look guide.old site.places) site v).depth ≤ 2048 }
        ensures { Turned (B.Hierarchy.meaning self.now.h.now) site v (look guide.old site.places) (look guide.new site.places) }
    {
        let old = site.finish(guide, v);
        self.expand(guide, site, Along::All, v, old.depth + 1);
    }
}

// A place that is reached and whose hops are still to be followed.
fn pick(guide: &[GuideRecord], site: Site) -> Option<usize>
    requires stands { Stands guide.now site.places site.row }
    ensures { Picked (look guide.now site.places) site result }
{
    (0..site.places).find(
        |&u|
            requires { (Stands guide.now site.places site.row) × (u < site.places) }
        {
            let found = site.get(guide, u);
            found.reached && !found.done
        },
    )
}

impl<'a, B: Hierarchy> Judged<'a, B> {
    // Follows hops from what is reached, until no hop leads to a place that is not.
    pub(crate) fn spread(&self, guide: &mut [GuideRecord], site: Site)
        requires at { SiteIn (B.Hierarchy.meaning self.now.h.now) guide.old site self.now.structures }
        requires orderly { Orderly (B.Hierarchy.meaning self.now.h.now) site (look guide.old site.places) }
        ensures spreads { Spreads (B.Hierarchy.meaning self.now.h.now) site (look guide.old site.places) (look guide.new site.places) }
        ensures closed { Closed (B.Hierarchy.meaning self.now.h.now) site (look guide.new site.places) }
        ensures orderly { Orderly (B.Hierarchy.meaning self.now.h.now) site (look guide.new site.places) }
        ensures done { NothingOpen (look guide.new site.places) site }
    {
        // a copy of its own, which can stay in registers; what is lent is read again after each write of the guide
        let Judged {
            h,
            structures,
            places,
        } = *self;
        let judged = Judged {
            h,
            structures,
            places,
        };
        while let Some(v) = pick(guide, site) {
            judged.turn(guide, site, v);
        }
    }
}
