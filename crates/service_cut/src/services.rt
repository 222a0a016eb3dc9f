// A service that has begun, row by row.
ghost use Rattle.std.specs.Prelude.{◌≡◌};
ghost use Rattle.service_cut.specs.Steps.{first_of, cause_after, service_after, service_over};

use crate::items::Served;
use crate::signs::Sign;
use sig_base::Row;

/// A begin of green whose end of yellow hasn't come, with the rows of its service so far.
#[derive(Clone, Copy)]
pub(crate) struct ServiceBegun {
    pub(crate) b: Row,
    pub(crate) g: Option<Row>,
    pub(crate) y: Option<Row>,
    /// The row that says why the green ended, as far as it has come.
    pub(crate) cause: Option<Row>,
}

fn after_change(begun: ServiceBegun, row: Row) -> ServiceBegun
    ensures { result ≡ record begun { g = first_of begun.g row } }
{
    match begun.g {
        Some(_) => begun,
        None => ServiceBegun {
            g: Some(row),
            ..begun
        },
    }
}

fn after_yellow(begun: ServiceBegun, row: Row) -> ServiceBegun
    ensures { result ≡ record begun { g = first_of begun.g row; y = first_of begun.y row } }
{
    let changed = after_change(begun, row);
    match begun.y {
        Some(_) => changed,
        None => ServiceBegun {
            y: Some(row),
            ..changed
        },
    }
}

fn after_cause(begun: ServiceBegun, row: Row) -> ServiceBegun
    ensures { result ≡ record begun { cause = cause_after begun.g row begun.cause } }
{
    match begun.g {
        Some(g) => {
            if row.at <= g.at {
                ServiceBegun {
                    cause: Some(row),
                    ..begun
                }
            } else {
                begun
            }
        }
        None => ServiceBegun {
            cause: Some(row),
            ..begun
        },
    }
}

pub(crate) fn service_after(
    service: Option<ServiceBegun>,
    sign: Sign,
    row: Row,
) -> Option<ServiceBegun>
    ensures { result ≡ service_after sign row service }
{
    match sign {
        Sign::Begin => Some(ServiceBegun {
            b: row,
            g: None,
            y: None,
            cause: None,
        }),
        Sign::Change => match service {
            Some(s) => Some(after_change(s, row)),
            None => None,
        },
        Sign::Yellow => match service {
            Some(s) => Some(after_yellow(s, row)),
            None => None,
        },
        Sign::End => match service {
            Some(s) => match s.y {
                Some(_) => None,
                None => service,
            },
            None => None,
        },
        Sign::Cause => match service {
            Some(s) => Some(after_cause(s, row)),
            None => None,
        },
        Sign::Other => service,
    }
}

/// A service whose end of yellow has come. A row that says why its green ended may still come
/// within its tenth.
#[derive(Clone, Copy)]
pub(crate) struct ServiceOver {
    pub(crate) served: Served,
    pub(crate) cause: Option<Row>,
}

pub(crate) fn service_over(
    phase: u8,
    service: Option<ServiceBegun>,
    row: &Row,
) -> Option<ServiceOver>
    ensures { result ≡ service_over phase service row.now }
{
    let begun = service?;
    let g = begun.g?;
    let y = begun.y?;
    let served = Served {
        phase,
        b: begun.b,
        g,
        y,
        r: *row,
    };
    Some(ServiceOver {
        served,
        cause: begun.cause,
    })
}
