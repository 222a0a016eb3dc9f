// What is noted of the rows that are kept, to tell of a further row whether it repeats one.
ghost use Rattle.std.specs.Prelude.{◌≡◌, ◌≢◌, ◌+◌, ◌++◌, ◌∷◌, ◌↔◌, ℕ, [], true, false, drop, IsTrue, IfSome, IfOk, OnOk};
ghost use Rattle.sig_base.specs.HourRows.{RiseIn};
ghost use Rattle.row_reader.specs.Repeats.{is_repeat};
ghost use Rattle.row_reader.specs.Last.{IsWithAll, StartsAt};
ghost use Rattle.row_reader.specs.Noted.{IsNoted, look_up};

use crate::lasts::Lasts;
use crate::look_back::is_repeat_behind;
use sig_base::{NoMemory, Row};
use std::alloc::Global;

// So many rows of one tenth are looked at one by one. Where there are more, all are noted.
const FEW: usize = 16;

/// The last row of each group at one tenth, where many rows are kept of it. `until` is the tenth
/// after it: none of a later one is noted.
#[derive(Drop)]
pub(crate) struct Noted {
    lasts: Lasts,
    until: u64,
}

// The last few rows, where all rows of this tenth are among them and no others.
fn few_rows(kept: &[Row], at: u32) -> Option<&[Row]>
    ensures { IfSome result (λ run. (n : ℕ) × (run.now ≡ drop n kept.now)
        × StartsAt at n kept.now) }
{
    if kept.len() < FEW {
        return None;
    }
    let from = kept.len() - FEW;
    if kept[from].at != at || (from > 0 && kept[from - 1].at >= at) {
        return None;
    }
    Some(&kept[from..])
}

impl Noted {
    /// Nothing is noted.
    pub fn none(alloc: Global) -> Noted
        ensures { IsNoted result [] }
    {
        Noted {
            lasts: Lasts::none(alloc),
            until: 0,
        }
    }

    // Whether the rows of this tenth are noted.
    fn has(&self, at: u32) -> bool
        ensures { IsTrue result ↔ (at + 1 ≡ self.now.until) }
    {
        u64::from(at) + 1 == self.until
    }

    // Notes these rows and this one, from now on as those of its tenth.
    #[inline(never)]
    fn begin(&mut self, run: &[Row], row: Row) -> Result<(), NoMemory>
        ensures until { OnOk result (self.new.until ≡ row.at + 1) }
        ensures all { OnOk result (IsWithAll (run.now ++ row ∷ [])
            (look_up self.old.lasts) (look_up self.new.lasts)) }
    {
        self.lasts.note_all(run)?;
        self.lasts.note(row)?;
        self.until = u64::from(row.at) + 1;
        Ok(())
    }

    // Takes note of this row, which is to be kept behind those that are. Those of its tenth aren't
    // noted.
    fn note_other(&mut self, kept: &[Row], row: Row) -> Result<(), NoMemory>
        requires noted { IsNoted self.old kept.now }
        requires other { row.at + 1 ≢ self.old.until }
        ensures { OnOk result (IsNoted self.new (kept.now ++ row ∷ [])) }
    {
        let Some(run) = few_rows(kept, row.at) else {
            return Ok(());
        };
        if u64::from(row.at) < self.until {
            return Ok(());
        }
        self.begin(run, row)?;
        Ok(())
    }

    /// Whether this row is a repeat behind those that are kept, none of which is later. Where it is
    /// none, it is noted, since it is to be kept behind them.
    pub fn note_new(&mut self, kept: &[Row], row: Row) -> Result<bool, NoMemory>
        requires noted { IsNoted self.old kept.now }
        requires rise { RiseIn 0 (row.at + 1) kept.now }
        ensures repeat { IfOk result (λ b. b ≡ is_repeat kept.now row) }
        ensures dropped { IfOk result (λ b. b ≡ true → IsNoted self.new kept.now) }
        ensures kept { IfOk result (λ b. b ≡ false → IsNoted self.new (kept.now ++ row ∷ [])) }
    {
        if self.has(row.at) {
            let repeats = self.lasts.note(row)?;
            return Ok(repeats);
        }
        if is_repeat_behind(kept, row) {
            return Ok(true);
        }
        self.note_other(kept, row)?;
        Ok(false)
    }
}
