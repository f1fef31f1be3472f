// Charts: nested structures of nodes and boxes, drawn edit by edit.
// Every chart value is a lawful hierarchy; each edit is refused, or does what it does to the chart's sheet.
#![tactic(auto)]

pub mod chart;
mod row;

pub use chart::Chart;
