//! The table of a run's flows: a flow for each case behind its lock, and the flows back at the end.
ghost use Rattle.std.specs.Prelude.{◌≡◌, ◌<◌, ◌≤◌, length, map, slice_get, Some, IfOk};
ghost use Rattle.std.specs.Sync.Mutex.{mutex_guard_value};
ghost use Rattle.ccp_base.specs.Limits.{most_flows};
ghost use Rattle.flow_table.specs.NumberedCases.{AreNumbered};

use crate::flow::LockedFlow;
use crate::guarded_flow::GuardedFlow;
use ccp_base::{NoMemory, Sequence};
use std::alloc::Global;
use std::marker::Model;
use std::sync::{Mutex, MutexGuard, Wait};

/// Flows, a flow a case, each behind its own lock. Contracts see the list of the cases.
#[derive(Drop)]
pub struct FlowTable<F: LockedFlow> {
    flows: Vec<GuardedFlow<F>>,
}

impl<F: LockedFlow> Model for FlowTable<F> {
    ghost use Rattle.std.specs.Prelude.{List, map, length, ◌≤◌};
    ghost use Rattle.ccp_base.specs.Limits.{most_flows};
    ghost use Rattle.flow_table.specs.NumberedCases.{AreNumbered};

    ghost Value = { List F.Case };

    ghost view = { λ t. map (λ locked. locked.case) t.flows.items };

    ghost invariant = { λ t. (length t.flows.items ≤ most_flows)
        × AreNumbered F.number_of 0 (map (λ locked. locked.case) t.flows.items) };
}

impl<F: LockedFlow> FlowTable<F> {
    /// Flows without a letter. There are at most 64 cases, in the order of their flows' numbers, from 0 on.
    pub fn new(alloc: Global, cases: Sequence<F::Case>) -> Result<FlowTable<F>, NoMemory>
        requires few { length cases ≤ most_flows }
        requires numbered { AreNumbered F.number_of 0 cases }
        ensures { IfOk result (λ table. table ≡ cases) }
    {
        let mut left = cases.into_vec();
        let mut flows = Vec::new(alloc);
        while !left.is_empty() {
            let case = left.remove(0);
            flows.push(GuardedFlow::open(alloc, case)?)?;
        }
        Ok(FlowTable { flows })
    }

    /// How many flows there are, at most 64.
    pub fn flows(&self) -> u32
        ensures flows { result ≡ length self.now }
        ensures few { result ≤ most_flows }
    {
        self.flows.len() as u32
    }

    /// The case of a flow.
    pub fn case(&self, flow: u32) -> &F::Case
        requires { flow < length self.now }
        ensures case { slice_get self.now flow ≡ Some result.now }
        ensures number { F.number_of result.now ≡ flow }
    {
        &self.guarded_flow(flow).case
    }

    /// The lock of a flow. Whoever holds it makes letters of the flow by the calls of its type.
    pub fn cell(&self, flow: u32) -> &Mutex<F>
        requires { flow < length self.now }
    {
        &self.guarded_flow(flow).flow
    }

    /// A flow with its lock and its case.
    fn guarded_flow(&self, flow: u32) -> &GuardedFlow<F>
        requires { flow < length self.now }
        ensures case { slice_get self.now flow ≡ Some result.now.case }
        ensures number { F.number_of result.now.case ≡ flow }
    {
        &self.flows[flow as usize]
    }

    /// Takes a flow's lock. A lock's type can't tell whose flow it keeps, so the numbers are compared: behind the lock
    /// of another flow it would wait forever.
    pub fn lock<'a, R: Wait>(&'a self, rt: &R, flow: u32) -> MutexGuard<'a, F>
        requires { flow < length self.now }
        ensures own { F.number_of (F.case_of (mutex_guard_value result)) ≡ flow }
    {
        let guard = self.cell(flow).lock(rt);
        if guard.number() != flow {
            for _ in rt.forever() {}
            unreachable!()
        }
        guard
    }

    /// The flows, each of its case, in order. A lock's type can't tell whose flow it keeps, so cases are compared: a
    /// flow of its own case is handed on as its workers left it, which tests show, and one of another case is made
    /// anew.
    pub fn close(self, alloc: Global) -> Result<Sequence<F>, NoMemory>
        ensures { IfOk result (λ flows. map F.case_of flows ≡ self) }
    {
        let mut left = self.flows;
        let mut flows = Sequence::new(alloc);
        while !left.is_empty() {
            let locked = left.remove(0);
            flows.push(locked.close(alloc)?)?;
        }
        Ok(flows)
    }
}
