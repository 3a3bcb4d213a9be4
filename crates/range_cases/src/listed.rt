//! The list of the faults that can be.
ghost use Rattle.std.specs.Prelude.{◌≡◌, ℕ, IsTrue, OnOk};
ghost use Rattle.portus_core.specs.Value.{Cause};
ghost use Rattle.range_cases.specs.Listing.{IsListed, KeepsListed};

use ccp_base::{FaultKind, NoMemory, Place, Sequence};

/// A fault that an operation can have, and the first acknowledgement of an epoch, from 0, that can have it.
#[derive(Clone, Copy)]
pub struct Listed {
    pub kind: FaultKind,
    /// The place of the operation's head atom.
    pub place: Place,
    pub first: u32,
}

/// Lists a fault that the acknowledgement with this number can have.
pub fn list(
    faults: &mut Sequence<Listed>,
    kind: FaultKind,
    place: Place,
    turn: u32,
) -> Result<(), NoMemory>
    ensures listed { OnOk result (IsListed faults.new (kind, place) turn) }
    ensures keeps { KeepsListed faults.old faults.new }
{
    if is_listed(faults.as_slice(), kind, place, turn) {
        return Ok(());
    }
    faults.push(Listed {
        kind,
        place,
        first: turn,
    })?;
    Ok(())
}

/// Whether the fault is listed already, for this acknowledgement or an earlier one.
fn is_listed(faults: &[Listed], kind: FaultKind, place: Place, turn: u32) -> bool
    ensures { IsTrue result → IsListed faults.now (kind, place) turn }
{
    faults.iter().any(|fault| fault.kind == kind && fault.place == place && fault.first <= turn)
}
