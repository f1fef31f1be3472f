// Layers upon layers: that they make piles, as contracts, and their sizes on wheels, as tests.
// Tests stand in a crate of their own, since a crate with tests is proved twice.
#![tactic(auto)]

ghost use Rattle.std.specs.Prelude.{◌≡◌, [], ◌∷◌, map};
ghost use Rattle.hierarchy.specs.Answers.{size_told};
ghost use Rattle.monitor.specs.Product.{laid};
ghost use Rattle.monitor.specs.Tables.{automaton_of};

use hierarchy::{Hierarchy, Size};
use layer::{Layer, Pile};
use monitor::Monitor;

// The size of two monitors over any hierarchy, `first` laid first.
pub fn size_of_two<B: Hierarchy>(below: &B, first: &Monitor, second: &Monitor) -> Option<Size>
    ensures { result ≡ size_told (laid (automaton_of second.now ∷ (automaton_of first.now ∷ [])) (B.Hierarchy.meaning below.now)) }
{
    let one = Layer::new(below, first);
    let two = Layer::new(&one, second);
    two.size()
}

// The size of any number of monitors over any hierarchy, the last one laid first.
pub fn size_of_pile<'a, B: Hierarchy>(below: &'a B, monitors: &'a [Monitor]) -> Option<Size>
    ensures { result ≡ size_told (laid (map automaton_of monitors.now) (B.Hierarchy.meaning below.now)) }
{
    let pile = Pile::new(below, monitors);
    pile.size()
}

#[cfg(test)]
mod tests {
    use super::*;
    use hierarchy::Refusal;
    use std::test::Fail;
    use wheel::Wheel;

    // The program worked_run makes the same monitor: a crate for one function would be no plainer.
    fn four_states() -> Result<Monitor, Refusal> {
        let mut monitor = Monitor::new();
        monitor.state()?;
        monitor.state()?;
        monitor.state()?;
        Ok(monitor)
    }

    fn fits(structures: usize, places: usize) -> Option<Size> {
        Some(Size { structures, places })
    }

    #[test]
    fn a_wheel_has_its_size(rt: HostRuntime) -> Result<(), Fail> {
        let wheel = Wheel::new(&[24, 60, 60])?;
        assert_eq!(rt; wheel.size(), fits(3, 62));
        Ok(())
    }

    #[test]
    fn sizes_are_refused(rt: HostRuntime) {
        assert!(rt; Wheel::new(&[]).is_err());
        assert!(rt; Wheel::new(&[1022, 1023]).is_err());
        assert!(rt; Wheel::new(&[1; 17]).is_err());
    }

    #[test]
    fn two_layers_fit_exactly(rt: HostRuntime) -> Result<(), Fail> {
        let monitor = four_states()?;
        let wheel = Wheel::new(&[14; 16])?;
        assert_eq!(rt; size_of_two(&wheel, &monitor, &monitor), fits(1024, 1024));
        Ok(())
    }

    #[test]
    fn a_pile_is_as_large_as_its_layers(rt: HostRuntime) -> Result<(), Fail> {
        let monitor = four_states()?;
        let wheel = Wheel::new(&[14; 16])?;
        assert_eq!(rt; size_of_pile(&wheel, &[]), fits(16, 16));
        assert_eq!(rt; size_of_pile(&wheel, &[monitor]), fits(128, 128));
        assert_eq!(rt; size_of_pile(&wheel, &[monitor; 2]), fits(1024, 1024));
        assert_eq!(rt; size_of_pile(&wheel, &[monitor; 3]), None);
        Ok(())
    }

    #[test]
    fn more_than_ten_monitors_are_too_large(rt: HostRuntime) -> Result<(), Fail> {
        let monitor = Monitor::new();
        let wheel = Wheel::new(&[1])?;
        assert_eq!(rt; size_of_pile(&wheel, &[monitor; 8]), fits(256, 768));
        assert_eq!(rt; size_of_pile(&wheel, &[monitor; 11]), None);
        let many = vec![in rt.alloc(); monitor; 100_000]?;
        assert_eq!(rt; size_of_pile(&wheel, &many), None);
        Ok(())
    }

    #[test]
    fn one_place_more_is_too_large(rt: HostRuntime) -> Result<(), Fail> {
        let monitor = four_states()?;
        let wheel = Wheel::new(&[15; 16])?;
        assert_eq!(rt; size_of_two(&wheel, &monitor, &monitor), None);
        Ok(())
    }

    #[test]
    fn a_fifth_state_is_refused(rt: HostRuntime) -> Result<(), Fail> {
        let mut monitor = four_states()?;
        assert!(rt; monitor.state().is_err());
        assert_eq!(rt; monitor.states(), 4);
        Ok(())
    }
}
