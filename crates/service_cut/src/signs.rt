// What a row says of a phase.
ghost use Rattle.std.specs.Prelude.{◌≡◌};
ghost use Rattle.service_cut.specs.Signs.{sign};

use sig_base::Row;

/// What a row says of a phase.
#[derive(Clone, Copy)]
pub(crate) enum Sign {
    /// Begin of green, code 1.
    Begin,
    /// Termination of green, code 7.
    Change,
    /// Begin of yellow, code 8.
    Yellow,
    /// End of yellow or begin of red clearance, code 9 or 10.
    End,
    /// Gap out, max out or force off, code 4, 5 or 6.
    Cause,
    /// Any other code, or another phase's row.
    Other,
}

#[tactic(auto, unfolding(crate::specs::Signs::sign))]
pub(crate) fn sign_of(phase: u8, row: &Row) -> Sign
    ensures { result ≡ sign phase row.now }
{
    if row.param != u16::from(phase) {
        return Sign::Other;
    }
    match row.code {
        1 => Sign::Begin,
        7 => Sign::Change,
        8 => Sign::Yellow,
        9 | 10 => Sign::End,
        4 | 5 | 6 => Sign::Cause,
        _ => Sign::Other,
    }
}
