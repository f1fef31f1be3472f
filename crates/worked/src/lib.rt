// The worked charts: what is claimed of each holds of its flat form, by the definitions alone.
// The function here does nothing; its contract is the theorem that its name says.
#![tactic(auto)]

ghost use Rattle.worked.specs.Charts.{WorkedChartsHold};

// Every claim of the list of worked charts holds, and all the edits that make them are accepted.
pub fn worked_charts_hold()
    ensures { WorkedChartsHold }
{}
