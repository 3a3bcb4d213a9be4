//! Sums of a table that are past 64 bits.
ghost use Rattle.std.specs.Prelude.{◌≡◌, IfOk, length};

use agent_core::Agent;
use campaign_core::{Row, Rows};
use campaign_report::{Agents, table_text};
use ccp_base::{Bytes, Look, Name, Names, Role};
use cubic_agent::Cubic;
use reno_agent::Reno;
use std::alloc::Global;
use std::test::Fail;

/// The row of a flow of Reno's with four acknowledgements, that of `ONE_CASE`.
pub(crate) const ROW: Row = Row {
    acks: 4,
    reports: 1,
    held: 0,
    faults: 0,
    epochs: 1,
    lost: 0,
    timeouts: 0,
    acked: 5792,
    peak: 10_136,
    cwnd: 10_136,
    now: 60_000,
    tail: 0,
};

/// A row with another number in each column, two of them the greatest ones.
const FULL: Row = Row {
    acks: u64::MAX,
    reports: 2,
    held: 3,
    faults: 4,
    epochs: 5,
    lost: 6,
    timeouts: 7,
    acked: u64::MAX,
    peak: 9,
    cwnd: 10,
    now: 11,
    tail: 12,
};

/// A role of a program with this number, of which an agent reads and writes nothing.
fn role(number: u32) -> Role {
    Role {
        number,
        look: Look {
            acked: None,
            loss: None,
            timeout: None,
            rtt: None,
            inflight: None,
            ecn: None,
            cap: None,
            mss: None,
        },
    }
}

/// The text of a row and two others.
const SUMS: &[u8] =
    b"case agent acks reports held faults epochs lost timeouts acked peak cwnd now tail\na reno 4 1 0 0 1 0 0 5792 10136 10136 60000 0\nb.c cubic 18446744073709551615 2 3 4 5 6 7 18446744073709551615 9 10 11 12\nd cubic 18446744073709551615 2 3 4 5 6 7 18446744073709551615 9 10 11 12\ntotal cases=3 acks=36893488147419103234 reports=5 held=6 faults=8 lost=12 timeouts=14 acked=36893488147419109022\n";

fn names(alloc: Global) -> Result<Names, Fail>
    ensures { IfOk result (λ names. length names ≡ 3) }
{
    let mut names = Names::new(alloc);
    names.push(Name::new(b"a").ok_or("name")?)?;
    names.push(Name::new(b"b.c").ok_or("name")?)?;
    names.push(Name::new(b"d").ok_or("name")?)?;
    Ok(names)
}

fn agents(alloc: Global) -> Result<Agents, Fail>
    ensures { IfOk result (λ agents. length agents ≡ 3) }
{
    let mut agents = Agents::new(alloc);
    agents.push(Agent::Reno(Reno::new(1448, role(0), role(1))))?;
    agents.push(Agent::Cubic(Cubic::new(1448, role(0), role(2))))?;
    agents.push(Agent::Cubic(Cubic::new(1448, role(0), role(2))))?;
    Ok(agents)
}

fn rows(alloc: Global) -> Result<Rows, Fail>
    ensures { IfOk result (λ rows. length rows ≡ 3) }
{
    let mut rows = Rows::new(alloc);
    rows.push(ROW)?;
    rows.push(FULL)?;
    rows.push(FULL)?;
    Ok(rows)
}

/// The table of these names and agents, which it drops, as well as the rows.
fn table_of(alloc: Global, names: &Names, agents: Agents) -> Result<Bytes, Fail>
    requires names { length names.now ≡ 3 }
    requires agents { length agents ≡ 3 }
{
    let text = match rows(alloc) {
        Ok(rows) => Ok(table_text(alloc, names, &agents, &rows)?),
        Err(fail) => Err(fail),
    };
    drop(agents);
    text
}

/// The table of a flow of Reno's and two of CUBIC's.
fn table(alloc: Global) -> Result<Bytes, Fail> {
    let names = names(alloc)?;
    table_of(alloc, &names, agents(alloc)?)
}

#[test]
fn sums_have_no_bound(rt: HostRuntime) -> Result<(), Fail> {
    assert!(rt; table(rt.alloc())?.as_slice() == SUMS);
    Ok(())
}
