// The numbers of channels and of phases.
ghost use Rattle.std.specs.Prelude.{◌≡◌, ◌==◌};
ghost use Rattle.sig_base.specs.Numbers.{has_number, has_phase};

use crate::values::PhaseItem;

/// Whether the number is one of these.
pub fn has_number(numbers: &[u8], number: u8) -> bool
    ensures { result ≡ has_number numbers.now number }
{
    numbers.iter().any(|one| *one == number)
}

/// Whether one of the phases has this number.
pub fn has_phase(phases: &[PhaseItem], number: u8) -> bool
    ensures { result ≡ has_phase phases.now number }
{
    phases.iter().any(|phase| phase.number == number)
}
