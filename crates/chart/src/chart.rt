// A chart: a table of rows, and what every chart keeps of it.
// A chart is drawn by edits only, and is lent to whatever judges it, so that no edit comes between.
ghost use Rattle.std.specs.Prelude.{◌≡◌, ℕ, ◌<◌, ◌≤◌, length};
ghost use Rattle.sheet.specs.Sheet.{at, longest};
ghost use Rattle.chart.specs.Layout.{sheet_of, Counts};
ghost use Rattle.sheet.specs.Laws.{Sound};

use crate::row::Row;

mod asks;
mod begins;
mod edits;
mod places;
mod replay;

// How many structures a chart has at most.
const STRUCTURES: usize = 32;

// The first `count` rows count; `most` is the length of the longest. A chart uses no heap: its rows lie in an array.
#[derive(Drop)]
pub struct Chart {
    table: [Row; STRUCTURES],
    count: usize,
    most: usize,
    ghost rows: { length table ≡ 32 },
    ghost some: { 0 < count },
    ghost few: { count ≤ 32 },
    ghost counts: { Counts count table },
    ghost structures: { length (sheet_of count table) ≡ count },
    ghost places: { (i : ℕ) → length (at (sheet_of count table) i).places ≤ 16 },
    ghost longest: { most ≡ longest (sheet_of count table) },
    ghost sound: { ∥ Sound (sheet_of count table) ∥₁ },
}
