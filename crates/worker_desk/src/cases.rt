//! What workers of a campaign do: they run their cases in order, each between two points of the gate.
ghost use Rattle.std.specs.Prelude.{◌≡◌, ◌<◌, ◌++◌, length, IfOk, OnOk, OnErr};
ghost use Rattle.worker_desk.specs.Logs.{Logs};
ghost use Rattle.worker_desk.specs.EveryNth.{every};
ghost use Rattle.worker_desk.specs.Cases.{cases_of_worker, begun_case, ended_case, run_events, Stops};

use crate::case_desk::{CaseDesk, GatedDesk};
use crate::receipt::{CaseDuty, CaseRun, CasesRun, Receipt, WorkerCase};
use ccp_base::{NoMemory, Point, Workers};

/// Runs a case between its two points of the gate. If memory runs out in the case, the second point isn't passed.
pub fn run_between_points<D: GatedDesk>(
    desk: &mut D,
    worker: u32,
    case: u32,
) -> Result<CaseRun, NoMemory>
    requires { D.CanRun (D.results desk.old) (D.made desk.old) case }
    ensures run { IfOk result (λ run. run ≡ record { worker = worker; case = case }) }
    ensures ended { OnOk result (Logs (D.log desk.old) (D.log desk.new) (ended_case worker case)) }
    ensures begun { OnErr result (Logs (D.log desk.old) (D.log desk.new) (begun_case worker case)) }
    ensures results { D.results desk.new ≡ D.results desk.old }
    ensures made { OnOk result (D.made desk.new ≡ D.made desk.old ++ D.results_of (D.results desk.old) case) }
{
    desk.pass(worker, Point::InCase, case);
    desk.run(case)?;
    desk.pass(worker, Point::AfterCase, case);
    Ok(Receipt {
        duty: WorkerCase { worker, case },
    })
}

/// The work of a campaign's worker: the cases `c` with `c mod workers = worker`, in order, each between two points of
/// the gate. If memory runs out in a case, it is the last one that is begun.
pub fn run_cases<D: CaseDesk>(
    desk: &mut D,
    worker: u32,
    workers: Workers,
) -> Result<CasesRun, NoMemory>
    requires { worker < workers.count }
    ensures run { IfOk result (λ run. run
        ≡ record { worker = worker; workers = workers.count; cases = length (D.results desk.old) }) }
    ensures runs { OnOk result (Logs (D.log desk.old) (D.log desk.new)
        (run_events worker (cases_of_worker worker workers.count (length (D.results desk.old))))) }
    ensures stops { OnErr result (Stops worker
        (cases_of_worker worker workers.count (length (D.results desk.old))) (D.log desk.old) (D.log desk.new)) }
    ensures made { OnOk result (D.made desk.new
        ≡ D.made desk.old ++ every workers.count worker (D.results desk.old)) }
    ensures results { D.results desk.new ≡ D.results desk.old }
{
    let cases = desk.case_count();
    let mut case = worker;
    while case < cases {
        run_between_points(desk, worker, case)?;
        case += workers.count();
    }
    Ok(Receipt {
        duty: CaseDuty {
            worker,
            workers: workers.count(),
            cases,
        },
    })
}
