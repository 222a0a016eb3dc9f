// One vehicle in its cycle, and what it meets when it comes later.
ghost use Rattle.std.specs.Prelude.{◌≡◌, ◌≤◌, ◌<◌, ℕ};
ghost use Rattle.offset_search.specs.Shifted.{IsInCycle, meets_green};

/// A vehicle that comes in a cycle of a phase. All numbers are tenths of a second, and all but
/// `length` are since the cycle's begin.
#[derive(Clone, Copy, Debug, PartialEq, Eq)]
pub struct Arrival {
    /// The cycle's length, from 1 to 3,000.
    pub length: u32,
    /// Begin of green.
    pub green: u32,
    /// Begin of yellow, which isn't before that of green.
    pub yellow: u32,
    /// When the vehicle comes, before the cycle's end.
    pub offset: u32,
}

// Shifts one after another, up to `end`: a vehicle meets green at all of them or at none.
#[derive(Clone, Copy)]
pub(crate) struct Stretch {
    pub(crate) is_green: bool,
    pub(crate) end: usize,
}

impl Arrival {
    // What the vehicle meets from this shift on, in seconds, up to the next edge: green's begin or
    // end, or the cycle's.
    pub(crate) fn stretch_from(&self, shift: usize) -> Stretch
        requires cycle { IsInCycle self.now }
        requires few { shift < 300 }
        ensures on { shift < result.end }
        ensures same { (j : ℕ) → shift ≤ j → j < result.end
            → meets_green self.now j ≡ result.is_green }
    {
        let tenth = (self.offset + 10 * shift as u32) % self.length;
        let (is_green, edge) = if tenth < self.green {
            (false, self.green)
        } else if tenth < self.yellow {
            (true, self.yellow)
        } else {
            (false, self.length)
        };
        Stretch {
            is_green,
            end: shift + (edge - tenth).div_ceil(10) as usize,
        }
    }
}
