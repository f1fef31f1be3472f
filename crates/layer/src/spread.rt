// Monitors spread out over a hierarchy, without regard to how large they make it.
// A pile asks them, and asks their size too.
ghost use Rattle.std.specs.Prelude.{◌≡◌, ◌≤◌, true, [], ◌∷◌, length, MatchOption};
ghost use Rattle.layer.specs.Piles.{pile};

use hierarchy::Hierarchy;
use monitor::Monitor;

mod asks;

pub(crate) use asks::size_above;

// How many monitors a pile has at most that is not too large: each at least doubles the sizes.
const MOST: usize = 10;

// At most ten monitors over a base. A question goes down the monitors, one level a monitor.
#[derive(Drop)]
pub(crate) struct Spread<'a, B> {
    base: &'a B,
    monitors: &'a [Monitor],
    ghost few: { length monitors.now ≤ 10 },
}

impl<'a, B: Hierarchy> Spread<'a, B> {
    // None of too many monitors.
    pub(crate) fn new(base: &'a B, monitors: &'a [Monitor]) -> Option<Spread<'a, B>>
        ensures { MatchOption result ((pile monitors.now (B.Hierarchy.meaning base.now)).large ≡ true) (λ s. (s.base ≡ base.entry) × (s.monitors ≡ monitors.entry)) }
    {
        if monitors.len() > MOST {
            return None;
        }
        Some(Spread { base, monitors })
    }

    // The monitor on top, and what it lies on.
    fn split(&self) -> Option<(&'a Monitor, Spread<'a, B>)>
        ensures { MatchOption result (self.now.monitors.now ≡ []) (λ s. (self.now.monitors.now ≡ s.0.now ∷ s.1.monitors.now) × (s.1.base ≡ self.now.base)) }
    {
        let (top, monitors) = self.monitors.split_first()?;
        let below = Spread {
            base: self.base,
            monitors,
        };
        Some((top, below))
    }
}
