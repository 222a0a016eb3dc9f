// Counts and sums that stand still at the last value of a u64, the least and the greatest.
ghost use Rattle.std.specs.Prelude.{◌≡◌, ◌+◌};
ghost use Rattle.hour_sweep.specs.Sums.{capped, lesser, greater};

/// The sum of both, or the last value of a u64 where it is more.
#[tactic(auto, unfolding(crate::specs::Sums::capped))]
pub fn total(a: u64, b: u64) -> u64
    ensures { result ≡ capped (a + b) }
{
    a.saturating_add(b)
}

/// The less of both, where there are any.
pub fn least_of(a: Option<u32>, b: Option<u32>) -> Option<u32>
    ensures { result ≡ lesser a b }
{
    match a {
        None => b,
        Some(x) => match b {
            None => a,
            Some(y) => Some(x.min(y)),
        },
    }
}

/// The greater of both, where there are any.
pub fn greatest_of(a: Option<u32>, b: Option<u32>) -> Option<u32>
    ensures { result ≡ greater a b }
{
    match a {
        None => b,
        Some(x) => match b {
            None => a,
            Some(y) => Some(x.max(y)),
        },
    }
}
