// The rows of an hour by their tenths.
ghost use Rattle.std.specs.Prelude.{◌≡◌, ◌+◌, ◌*◌, ℕ, IsPermutation, OnOk, length};
ghost use Rattle.sig_base.specs.HourRows.{RiseIn};
ghost use Rattle.row_reader.specs.Order.{AreWithin, in_row_order, rows_at};

use sig_base::{Hour, NoMemory, Row};

/// Puts the rows of an hour into the order of their tenths; those of one tenth stay in their order.
pub fn put_in_order(hour: Hour, rows: &mut Vec<Row>) -> Result<(), NoMemory>
    requires { AreWithin (36000 * hour) (36000 * hour + 36000) rows.old.items }
    ensures order { OnOk result (rows.new.items ≡ in_row_order hour rows.old.items) }
    ensures rise { OnOk result (RiseIn (36000 * hour) (36000 * hour + 36000) rows.new.items) }
    ensures permutation { IsPermutation rows.old.items rows.new.items }
    ensures len { length rows.new.items ≡ length rows.old.items }
    ensures tenths { OnOk result ((t : ℕ) → rows_at t rows.new.items ≡ rows_at t rows.old.items) }
{
    rows.sort_by_key(|r| r.at)?;
    Ok(())
}
