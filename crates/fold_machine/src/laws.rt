//! A law: the numbers of a machine's rest determine what contracts see of it, besides its further slots.
ghost use Rattle.std.specs.Prelude.{◌≡◌};
ghost use Rattle.fold_machine.specs.MachineState.{MachineState, machine_numbers};

/// The numbers of a machine's rest determine all that contracts see of it besides its further slots. So the calls
/// of `Slots`, which leave the rest as it is, leave all of that as it is.
pub fn rest_determines_machine()
    ensures { (a b : MachineState) → machine_numbers a ≡ machine_numbers b → a ≡ record b { further = a.further } }
{}
