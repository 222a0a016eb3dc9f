// Of which channel each row is.
ghost use Rattle.std.specs.Prelude.{◌≡◌, ◌+◌, ◌<◌, ◌≤◌, ℕ, Bool, true, false, All, length, IfOk};
ghost use Rattle.rule_audit.specs.Pass.{FitsRule};
ghost use Rattle.rule_audit.specs.Index.{has_row, AreOwn, AreSkips, IsSkips, IsWritten};

use crate::index::Skips;
use crate::rules::Rule;
use board::HourView;
use channel_path::Move;
use sig_base::{NoMemory, Row};
use std::alloc::Global;

// Whether one of two lists picks a rule, of so many rules.
fn is_ruled(timed: &Skips, clauses: &Skips, count: usize) -> bool
    requires timed { length timed.now ≡ count + 1 }
    requires clauses { length clauses.now ≡ count + 1 }
    ensures { (p q : ℕ → Bool) → IsSkips p count timed.now → IsSkips q count clauses.now
        → result ≡ false → (x : ℕ) → x < count → (p x ≡ false) × (q x ≡ false) }
{
    !timed.is_empty(count) || !clauses.is_empty(count)
}

// Writes the place of a channel at the rows of its letters.
fn write_place(own: &mut [u16], moves: &[Move], place: u16)
    requires within { (n : ℕ) → has_row n moves.now ≡ true → n < length own.old }
    ensures { IsWritten moves.now place own.old own.new }
{
    for each in moves {
        match *each {
            Move::Letter { row, .. } => own[row as usize] = place,
            Move::Gap { .. } => {}
        }
    }
}

/// For each row of a known tenth the place of its channel, or the number of specs where no rule is
/// of it.
pub(crate) fn own_places(
    alloc: Global,
    rules: &[Rule],
    timed: &[Skips],
    clauses: &[Skips],
    view: &HourView,
    rows: &[Row],
) -> Result<Vec<u16>, NoMemory>
    requires few { length view.now.specs ≤ 225 }
    requires rows { view.now.rows ≡ rows.now }
    requires fit { All (FitsRule view.now.specs) rules.now }
    requires timed { AreSkips view.now.specs rules.now false (length view.now.specs) timed.now }
    requires clauses { AreSkips view.now.specs rules.now true (length view.now.specs) clauses.now }
    ensures { IfOk result (λ v. AreOwn view.now.specs rules.now rows.now view.now.stretches
        v.items) }
{
    let count = view.channels() as u16;
    let mut own = vec![in alloc; count; rows.len()]?;
    for place in 0..count {
        let index = place as usize;
        if is_ruled(&timed[index], &clauses[index], rules.len()) {
            write_place(&mut own, view.moves(place), place);
        }
    }
    Ok(own)
}
