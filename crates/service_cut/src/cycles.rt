// A cycle that has begun, row by row.
ghost use Rattle.std.specs.Prelude.{◌≡◌};
ghost use Rattle.service_cut.specs.Cycles.{offset_of};
ghost use Rattle.service_cut.specs.Steps.{yellow_after, cycle_after};

use crate::signs::Sign;
use sig_base::Row;

/// A last end of yellow, with the last begin of green and of yellow since.
#[derive(Clone, Copy)]
pub(crate) struct CycleBegun {
    pub(crate) from: Row,
    pub(crate) green: Option<Row>,
    pub(crate) yellow: Option<Row>,
}

pub(crate) fn live_yellow_after(yellow: Option<Row>, sign: Sign, row: Row) -> Option<Row>
    ensures { result ≡ yellow_after sign row yellow }
{
    match sign {
        Sign::Yellow => Some(row),
        Sign::End => None,
        _ => yellow,
    }
}

pub(crate) fn cycle_after(
    cycle: Option<CycleBegun>,
    yellow: Option<Row>,
    sign: Sign,
    row: Row,
) -> Option<CycleBegun>
    ensures { result ≡ cycle_after sign row yellow cycle }
{
    match sign {
        Sign::Begin => match cycle {
            Some(t) => Some(CycleBegun {
                green: Some(row),
                ..t
            }),
            None => None,
        },
        Sign::Yellow => match cycle {
            Some(t) => Some(CycleBegun {
                yellow: Some(row),
                ..t
            }),
            None => None,
        },
        Sign::End => match yellow {
            Some(_) => Some(CycleBegun {
                from: row,
                green: None,
                yellow: None,
            }),
            None => cycle,
        },
        _ => cycle,
    }
}

pub(crate) fn offset(from: u32, row: Option<Row>) -> u32
    ensures { result ≡ offset_of from row }
{
    match row {
        Some(row) => row.at.saturating_sub(from),
        None => 0,
    }
}
