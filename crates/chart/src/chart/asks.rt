// A chart as a hierarchy: every chart value is lawful, and each question is answered from its table.
ghost use Rattle.std.specs.Prelude.{◌≡◌};
ghost use Rattle.hierarchy.specs.Meaning.{Meaning};
ghost use Rattle.sheet.specs.Sheet.{meaning_of};
ghost use Rattle.chart.specs.Charts.{sheet};
ghost use Rattle.chart.specs.Lawful.{chart_lawful};

use crate::chart::Chart;
use hierarchy::{Hierarchy, Look, Place, Size};
use sheet::Spot;

impl Hierarchy for Chart {
    ghost meaning = { λ c. meaning_of (sheet c) };

    ghost lawful = { chart_lawful };

    fn size(&self) -> Option<Size> {
        Some(Size {
            structures: self.structures(),
            places: self.most,
        })
    }

    fn place(&self, i: usize, p: usize) -> Place {
        match self.find_row(i).and_then(|row| row.spot(p)) {
            Some(Spot::Node { .. }) => Place::Node,
            Some(Spot::Box { inner }) => Place::Box(inner),
            None => Place::Absent,
        }
    }

    fn entry(&self, _i: usize) -> usize {
        0
    }

    fn is_exit(&self, i: usize, p: usize) -> bool {
        self.find_row(i).is_some_and(|row| row.is_exit(p))
    }

    fn look(&self, i: usize, p: usize) -> Look {
        let look = self.find_row(i).map_or(0, |row| row.look(p));
        Look {
            letter: look % 16,
            mark: look >= 128,
        }
    }

    fn has_edge(&self, i: usize, p: usize, w: usize) -> bool {
        self.find_row(i).is_some_and(|row| row.is_edge(p, w))
    }

    fn has_leave(&self, i: usize, b: usize, e: usize, w: usize) -> bool {
        self.find_row(i).is_some_and(|row| row.is_leave(b, e, w))
    }
}
