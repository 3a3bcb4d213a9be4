//! A flow with its lock and its case.

ghost use Rattle.std.specs.Prelude.{◌≡◌, Ok, IfOk};

use crate::flow::LockedFlow;
use ccp_base::NoMemory;
use std::alloc::Global;
use std::sync::Mutex;

/// A flow behind its lock, and its case beside it.
#[derive(Drop)]
pub(crate) struct GuardedFlow<F: LockedFlow> {
    pub(crate) case: F::Case,
    pub(crate) flow: Mutex<F>,
}

impl<F: LockedFlow> GuardedFlow<F> {
    /// A flow without a letter.
    pub(crate) fn open(alloc: Global, case: F::Case) -> Result<GuardedFlow<F>, NoMemory>
        ensures { IfOk result (λ locked. locked.case ≡ case) }
    {
        let kept = F::copy(alloc, &case)?;
        let flow = Mutex::new(F::open(alloc, case)?);
        Ok(GuardedFlow { case: kept, flow })
    }

    /// The flow as its workers left it.
    pub(crate) fn close(self, alloc: Global) -> Result<F, NoMemory>
        ensures { IfOk result (λ flow. F.case_of flow ≡ self.case) }
    {
        flow_of_case(alloc, self.flow.into_inner(), &self.case)
    }
}

/// The flow if it is of this case, else a new one.
fn flow_of_case<F: LockedFlow>(alloc: Global, flow: F, case: &F::Case) -> Result<F, NoMemory>
    ensures case { IfOk result (λ flow. F.case_of flow ≡ case.now) }
    ensures kept { F.case_of flow ≡ case.now → result ≡ Ok flow }
{
    if flow.is_of(case) {
        Ok(flow)
    } else {
        fresh_flow(alloc, flow, case)
    }
}

/// A new flow of the case, in place of one of another.
// for the prover: what drops a flow takes it, so that the branch that keeps the flow drops nothing
fn fresh_flow<F: LockedFlow>(alloc: Global, flow: F, case: &F::Case) -> Result<F, NoMemory>
    ensures case { IfOk result (λ flow. F.case_of flow ≡ case.now) }
    ensures fresh { IfOk result (λ flow. flow ≡ F.fresh case.now) }
{
    drop(flow);
    F::open(alloc, F::copy(alloc, case)?)
}
