//! The results that a worker can make of a case: its row, its flow after the campaign word, or its acknowledgements.
ghost use Rattle.std.specs.Prelude.{◌≡◌, IfOk};
ghost use Rattle.flow_core.specs.declared.case.Case.{Case};
ghost use Rattle.campaign_core.specs.CampaignRow.{case_row};
ghost use Rattle.campaign_gate.specs.CampaignBooks.{acks_of_case};
ghost use Rattle.campaign_gate.specs.CaseRuns.{book_flow_of_case};

use crate::case_run::run_to_end;
use crate::listed_flow::ListedFlow;
use campaign_core::{BareFlow, Row};
use ccp_base::{Ack, Acks, NoMemory, Sequence};
use flow_core::{BookFlow, Case};
use std::alloc::Global;

/// A result that a worker makes of each of its cases.
pub(crate) trait CaseResult: Drop {
    /// The result of a case.
    ghost of_case: { Case → Self };

    /// Runs the case along its campaign word.
    fn make(alloc: Global, case: Case) -> Result<Self, NoMemory>
        ensures { IfOk result (λ made. made ≡ of_case case) };
}

impl CaseResult for Row {
    ghost of_case = { case_row };

    fn make(alloc: Global, case: Case) -> Result<Row, NoMemory> {
        let flow = run_to_end::<BareFlow>(alloc, case)?;
        let row = flow.row();
        drop(flow);
        Ok(row)
    }
}

/// The flow after its campaign word, from which a book is made.
impl CaseResult for BookFlow {
    ghost of_case = { book_flow_of_case };

    fn make(alloc: Global, case: Case) -> Result<BookFlow, NoMemory> {
        let flow = run_to_end::<BookFlow>(alloc, case)?;
        Ok(flow.flow)
    }
}

/// The acknowledgements on the way.
impl CaseResult for Sequence<Ack> {
    ghost of_case = { acks_of_case };

    fn make(alloc: Global, case: Case) -> Result<Acks, NoMemory> {
        let flow = run_to_end::<ListedFlow>(alloc, case)?;
        Ok(flow.flow.into_acks())
    }
}
