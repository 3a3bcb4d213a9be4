//! Laws of the definitions: letters that take no acknowledgement end, and rows count all reports.
ghost use Rattle.ccp_base.specs.declared.place.Place.{Place};
ghost use Rattle.flow_core.specs.Readings.{over_codes};
ghost use Rattle.campaign_core.specs.FlowRow.{CaseReading};
ghost use Rattle.shared_run.specs.RoundLetters.{SettlingEnds};
ghost use Rattle.shared_run.specs.SharedReports.{RowsCountReports};

/// What holds of every flow, on the way and at the run's end: after it has taken and answered as often as the
/// definition says, nothing is left to take or to answer. It holds over the codes of the cases and over every reading
/// of their sources.
pub fn settling_law()
    ensures codes { SettlingEnds over_codes }
    ensures sources { (sources : CaseReading Place) → SettlingEnds sources }
{}

/// What holds of every flow at the end of a run: its answered tickets have all reports that it made, in order, and its
/// row has their number. It holds over the codes of the cases and over every reading of their sources.
pub fn reports_law()
    ensures codes { RowsCountReports over_codes }
    ensures sources { (sources : CaseReading Place) → RowsCountReports sources }
{}
