//! The next letter of an incomplete word of a rollout: a change, else the next entry, else an acknowledgement.
ghost use Rattle.std.specs.Prelude.{◌≡◌, ◌<◌, Ok, true, false, length, OnOk};
ghost use Rattle.open_flow.specs.declared.letter.OpenLetter.TheVariants as letters;
ghost use Rattle.open_flow.specs.OpenWords.{is_complete};
ghost use Rattle.open_flow.specs.OpenCells.{world_at, is_legal_at};
ghost use Rattle.open_flow.specs.NextLetter.{HasNext, letters_left};

use crate::cell::OpenCell;
use crate::entry::entry_of;
use ccp_base::NoMemory;
use std::alloc::Global;

/// Makes one letter of a word that isn't complete: a change, or else the next entry, or else an acknowledgement.
pub fn make_letter(alloc: Global, cell: &mut OpenCell) -> Result<(), NoMemory>
    requires { is_complete cell.old.case (world_at cell.old) ≡ false }
    ensures next { OnOk result (HasNext cell.old cell.new) }
    ensures fewer { OnOk result (letters_left cell.new < letters_left cell.old) }
{
    if change(cell) {
        return Ok(());
    }
    if install(alloc, cell)? {
        return Ok(());
    }
    acknowledge(cell);
    Ok(())
}

/// Changes the flow if an accepted entry is left, and says whether it did.
fn change(cell: &mut OpenCell) -> bool
    ensures made { result ≡ true → HasNext cell.old cell.new }
    ensures fewer { result ≡ true → letters_left cell.new < letters_left cell.old }
    ensures not { result ≡ false → cell.new ≡ cell.old }
    ensures none { result ≡ false → is_legal_at cell.old letters.G ≡ false }
{
    match cell.change() {
        Ok(_) => true,
        Err(_) => false,
    }
}

/// Installs the entry of the next step if one is left, and says whether it did.
fn install(alloc: Global, cell: &mut OpenCell) -> Result<bool, NoMemory>
    requires { is_legal_at cell.old letters.G ≡ false }
    ensures made { result ≡ Ok true → HasNext cell.old cell.new }
    ensures fewer { result ≡ Ok true → letters_left cell.new < letters_left cell.old }
    ensures not { result ≡ Ok false → cell.new ≡ cell.old }
    ensures none { result ≡ Ok false → is_legal_at cell.old letters.I ≡ false }
{
    let step = cell.entries().len();
    if step >= cell.case().steps.len() {
        return Ok(false);
    }
    install_next(alloc, cell, step as u32)?;
    Ok(true)
}

/// Installs the entry of this step, which is the next one.
// for the prover: what the test before it shows is a premise here
fn install_next(alloc: Global, cell: &mut OpenCell, step: u32) -> Result<(), NoMemory>
    requires next { step ≡ length cell.old.entries }
    requires more { step < length cell.old.case.steps }
    requires world { length (world_at cell.old).entries ≡ step }
    requires none { is_legal_at cell.old letters.G ≡ false }
    ensures next { OnOk result (HasNext cell.old cell.new) }
    ensures fewer { OnOk result (letters_left cell.new < letters_left cell.old) }
{
    let entry = entry_of(alloc, cell.case(), step)?;
    cell.put(entry);
    Ok(())
}

/// Takes the next acknowledgement.
fn acknowledge(cell: &mut OpenCell)
    requires more { length (world_at cell.old).acks < cell.old.case.acks }
    requires none { (is_legal_at cell.old letters.G ≡ false) × (is_legal_at cell.old letters.I ≡ false) }
    ensures next { HasNext cell.old cell.new }
    ensures fewer { letters_left cell.new < letters_left cell.old }
{
    let Ok(_) = cell.hear() else { unreachable!() };
}
