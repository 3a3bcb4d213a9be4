//! The law of rows: what holds of the campaign word of every case, and of its row.
ghost use Rattle.std.specs.Prelude.{◌≡◌, true};
ghost use Rattle.flow_core.specs.Readings.{over_codes};
ghost use Rattle.flow_core.specs.Words.{world, legal, is_complete};
ghost use Rattle.campaign_core.specs.CampaignWord.{plan};
ghost use Rattle.campaign_gate.specs.RowReports.{RowCountsReports};

use flow_core::Case;

/// A law: the campaign word of a case is legal and complete. After it the answered tickets have all reports that the
/// flow made, in order, and the row has their number.
pub fn row_law(case: &Case)
    ensures legal { legal (over_codes case.now) case.now.link (plan case.now) ≡ true }
    ensures complete { is_complete (over_codes case.now)
        (world (over_codes case.now) case.now.link (plan case.now)) ≡ true }
    ensures reports { RowCountsReports case.now }
{}
