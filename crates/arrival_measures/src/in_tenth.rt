// A cycle at the rows of a tenth that may have more of them.
ghost use Rattle.std.specs.Prelude.{◌≡◌};
ghost use Rattle.arrival_measures.specs.Arrivals.{is_on};
ghost use Rattle.arrival_measures.specs.Green.{green_after};
ghost use Rattle.arrival_measures.specs.InTenths.{ended, moved, with_row, tenth_after};

use crate::open::Open;
use hour_sweep::total;
use sig_base::Row;

// A later row of the tenth may change what its end shows, so the arrivals in it are kept apart.
#[derive(Clone, Copy)]
pub(crate) struct InTenth {
    // Up to the tenth, but the colour is the one after the rows so far.
    pub(crate) cycle: Open,
    pub(crate) at: u32,
    // In the tenth itself.
    pub(crate) arrivals: u64,
}

fn is_on(detector: u8, row: &Row) -> bool
    ensures { result ≡ is_on detector row.now }
{
    row.code == 82 && row.param == u16::from(detector)
}

fn green_after(phase: u8, row: &Row, is_green: bool) -> bool
    ensures { result ≡ green_after phase row.now is_green }
{
    if row.param != u16::from(phase) {
        return is_green;
    }
    match row.code {
        1 => true,
        7 | 8 => false,
        _ => is_green,
    }
}

impl InTenth {
    // This tenth has ended, and those up to `to` have no rows.
    #[tactic(auto, unfolding(crate::specs::InTenths::ended))]
    fn ended(self, to: u32) -> InTenth
        ensures { result ≡ ended to self }
    {
        let cycle = self.cycle;
        let green = if cycle.is_green { self.arrivals } else { 0 };
        let tenths = if cycle.is_green {
            to.saturating_sub(self.at)
        } else {
            0
        };
        InTenth {
            cycle: Open {
                from: cycle.from,
                arrivals: total(cycle.arrivals, self.arrivals),
                green: total(cycle.green, green),
                green_tenths: cycle.green_tenths.saturating_add(tenths),
                is_green: cycle.is_green,
            },
            at: to,
            arrivals: 0,
        }
    }

    #[tactic(auto, unfolding(crate::specs::InTenths::moved))]
    pub(crate) fn moved_to(self, to: u32) -> InTenth
        ensures { result ≡ moved to self }
    {
        if self.at < to { self.ended(to) } else { self }
    }

    #[tactic(auto, unfolding(crate::specs::InTenths::with_row))]
    fn with_row(self, phase: u8, detector: u8, row: &Row) -> InTenth
        ensures { result ≡ with_row phase detector self row.now }
    {
        let cycle = self.cycle;
        let more = u64::from(is_on(detector, row));
        InTenth {
            cycle: Open {
                is_green: green_after(phase, row, cycle.is_green),
                ..cycle
            },
            at: self.at,
            arrivals: total(self.arrivals, more),
        }
    }

    pub(crate) fn after(self, phase: u8, detector: u8, row: &Row) -> InTenth
        ensures { result ≡ tenth_after phase detector self row.now }
    {
        self.moved_to(row.at).with_row(phase, detector, row)
    }
}
