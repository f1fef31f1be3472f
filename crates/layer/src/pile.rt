// A pile of monitors whose number is known only at run time; it is again a hierarchy.
// The monitor that was laid last stands first.
ghost use Rattle.std.specs.Prelude.{◌≡◌, true, map, MatchOption};
ghost use Rattle.monitor.specs.Automata.{AllProper};
ghost use Rattle.monitor.specs.Tables.{automaton_of};
ghost use Rattle.layer.specs.Piles.{pile, pile_lawful};
ghost use Rattle.layer.specs.Spreads.{spread_of};

use crate::spread::Spread;
use hierarchy::{Hierarchy, Look, Place, Size};
use monitor::Monitor;

// Exits, edges and leaves are asked at the bottom before the size is, so that a no there costs one question. Any other
// answer asks the size once. A place, an entry or an exit over k monitors costs k steps and one question more at the
// bottom, a look at most twice that. An edge or a leave that the bottom has, in a pile that fits, is read by one monitor
// after the other up to the first that refuses it, which costs about k * k steps and at most 3 * k + 1 questions there.
#[derive_where(Clone, Copy)]
pub struct Pile<'a, B> {
    base: &'a B,
    monitors: &'a [Monitor],
}

impl<'a, B: Hierarchy> Pile<'a, B> {
    // The monitors laid over the base, the last of them first.
    pub fn new(base: &'a B, monitors: &'a [Monitor]) -> Pile<'a, B>
        ensures base { result.base ≡ base.entry }
        ensures monitors { result.monitors ≡ monitors.entry }
        ensures proper { AllProper (map automaton_of monitors.now) }
    {
        Pile { base, monitors }
    }

    // The monitors spread out, if they are not too many.
    fn spread(&self) -> Option<Spread<'a, B>>
        ensures { MatchOption result ((pile self.now.monitors.now (B.Hierarchy.meaning self.now.base.now)).large ≡ true) (λ s. (s.base ≡ self.now.base) × (s.monitors ≡ self.now.monitors)) }
    {
        Spread::new(self.base, self.monitors)
    }

    // The monitors spread out, if they make nothing too large.
    fn fitting(&self) -> Option<Spread<'a, B>>
        ensures { MatchOption result ((pile self.now.monitors.now (B.Hierarchy.meaning self.now.base.now)).large ≡ true) (λ s. pile self.now.monitors.now (B.Hierarchy.meaning self.now.base.now) ≡ spread_of B.Hierarchy.meaning s) }
    {
        let spread = self.spread()?;
        spread.size()?;
        Some(spread)
    }
}

impl<'a, B: Hierarchy> Hierarchy for Pile<'a, B> {
    ghost meaning = { λ x. pile x.monitors.now (B.Hierarchy.meaning x.base.now) };

    ghost lawful = { λ x. pile_lawful x.monitors.now (B.Hierarchy.lawful x.base.now) };

    fn size(&self) -> Option<Size> {
        self.spread()?.size()
    }

    fn place(&self, i: usize, p: usize) -> Place {
        self.fitting()
            .map_or(Place::Absent, |spread| spread.place(i, p))
    }

    // by cases: entry asks that the structure is there, which a closure would have to repeat
    fn entry(&self, i: usize) -> usize {
        let Some(spread) = self.spread() else {
            return 0;
        };
        let Some(size) = spread.size() else {
            return 0;
        };
        if i < size.structures {
            spread.entry(i)
        } else {
            0
        }
    }

    fn is_exit(&self, i: usize, p: usize) -> bool {
        self.spread()
            .is_some_and(|spread| spread.is_exit(i, p) && spread.fits())
    }

    fn look(&self, i: usize, p: usize) -> Look {
        self.fitting()
            .map_or(Look::default(), |spread| spread.look(i, p))
    }

    fn has_edge(&self, i: usize, p: usize, w: usize) -> bool {
        self.spread()
            .is_some_and(|spread| spread.has_edge(&spread, i, p, w))
    }

    fn has_leave(&self, i: usize, b: usize, e: usize, w: usize) -> bool {
        self.spread()
            .is_some_and(|spread| spread.has_leave(&spread, i, b, e, w))
    }
}
