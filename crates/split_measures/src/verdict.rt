// Whether a service is a split failure.
ghost use Rattle.std.specs.Prelude.{◌≡◌, ◌<◌, ◌^◌};
ghost use Rattle.split_measures.specs.Verdicts.{are_enough, verdict_by, verdict_of};

use sig_base::Frac;
use stop_bar::Windows;

/// Whether a service is a split failure at its stop bar's detector: over all histories that agree
/// with the log.
#[derive(Clone, Copy, Debug, PartialEq, Eq)]
pub enum SplitVerdict {
    /// In all of them.
    Fail,
    /// In none.
    Pass,
    /// Only in some.
    Undecided,
    /// Its red window isn't over at the window's end.
    Open,
    /// At a tenth of one of its windows the detector has a fault in all of them.
    Fault,
}

/// The verdict of a service by how many tenths the detector was on: `green` is the length of the
/// green, `green_least` and `green_greatest` are the least and the greatest number in the green, the
/// other two those in the red window of 50 tenths. `high` is the share of each window from which on
/// the service fails. Whether it is open or a fault comes is asked before.
pub fn split_verdict(
    green: u32,
    green_least: u32,
    green_greatest: u32,
    red_least: u32,
    red_greatest: u32,
    high: &Frac,
) -> SplitVerdict
    requires num { high.now.num < 2 ^ 32 }
    requires den { high.now.den < 2 ^ 32 }
    ensures { result ≡ verdict_of high.now.num high.now.den green
        green_least green_greatest red_least red_greatest }
{
    if are_enough(green, green_least, red_least, high) {
        return SplitVerdict::Fail;
    }
    if are_enough(green, green_greatest, red_greatest, high) {
        return SplitVerdict::Undecided;
    }
    SplitVerdict::Pass
}

// Whether a history that is on at so many tenths of both windows fails.
fn are_enough(width: u32, green: u32, red: u32, high: &Frac) -> bool
    requires num { high.now.num < 2 ^ 32 }
    requires den { high.now.den < 2 ^ 32 }
    ensures { result ≡ are_enough high.now.num high.now.den width green red }
{
    high.num * u64::from(width) <= u64::from(green) * high.den
        && high.num * 50 <= u64::from(red) * high.den
}

/// The verdict of a service whose windows are over.
pub(crate) fn windows_verdict(windows: &Windows, high: &Frac) -> SplitVerdict
    requires num { high.now.num < 2 ^ 32 }
    requires den { high.now.den < 2 ^ 32 }
    ensures { result ≡ verdict_by high.now windows.now }
{
    if windows.green.fault || windows.red.fault {
        return SplitVerdict::Fault;
    }
    split_verdict(
        windows.service.g.saturating_sub(windows.service.b),
        windows.green.least,
        windows.green.greatest,
        windows.red.least,
        windows.red.greatest,
        high,
    )
}
