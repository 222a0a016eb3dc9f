// Pedestrian signals, row by row.
ghost use Rattle.std.specs.Prelude.{◌≡◌};
ghost use Rattle.other_measures.specs.Passing.{is_ped_code, other_peds_pass};
ghost use Rattle.other_measures.specs.Peds.{is_call, is_walk};
ghost use Rattle.other_measures.specs.Steps.{delay_by, ped_after, ped_cleared};

use crate::last_rows::{Lapse, LastRow, lapse_of, last_row_after};
use hour_sweep::Track;
use sig_base::Row;

/// What is under way of one pedestrian signal: its last begin of walk, with the first call since.
#[derive(Clone, Copy)]
pub(crate) struct PedPart {
    pub(crate) number: u8,
    pub(crate) walk: Option<LastRow>,
}

/// How long pedestrians waited for a walk.
#[derive(Clone, Copy)]
pub(crate) struct Delay {
    pub(crate) ped: u8,
    pub(crate) wait: Lapse,
}

#[tactic(auto, unfolding(crate::specs::Peds::is_walk))]
fn is_walk(ped: u8, row: &Row) -> bool
    ensures { result ≡ is_walk ped row.now }
{
    row.param == u16::from(ped) && row.code == 21
}

#[tactic(auto, unfolding(crate::specs::Peds::is_call))]
fn is_call(ped: u8, row: &Row) -> bool
    ensures { result ≡ is_call ped row.now }
{
    row.param == u16::from(ped) && row.code == 45
}

impl Track for PedPart {
    type Out = Delay;

    ghost step = { ped_after };

    ghost clear = { ped_cleared };

    ghost out_by = { delay_by };

    ghost wants = { is_ped_code };

    ghost passes = { other_peds_pass };

    fn wants(code: u8) -> bool {
        code == 21 || code == 45
    }

    fn after(self, row: &Row) -> Self {
        PedPart {
            number: self.number,
            walk: last_row_after(
                is_walk(self.number, row),
                is_call(self.number, row),
                *row,
                self.walk,
            ),
        }
    }

    fn cleared(self) -> Self {
        PedPart {
            number: self.number,
            walk: None,
        }
    }

    fn out(self, row: &Row) -> Option<Delay> {
        if is_walk(self.number, row) {
            Some(Delay {
                ped: self.number,
                wait: lapse_of(row.at, self.walk),
            })
        } else {
            None
        }
    }
}
