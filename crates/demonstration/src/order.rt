// The order of the rows.
ghost use Rattle.std.specs.Prelude.{◌≡◌, OnOk};
ghost use Rattle.demonstration.specs.Order.{ordered};

use sig_base::{NoMemory, Row};

/// Puts the rows in order: by their tenths, those of one tenth by their codes, those of one code by
/// their parameters.
pub(crate) fn put_in_order(rows: &mut Vec<Row>) -> Result<(), NoMemory>
    ensures { OnOk result (rows.new.items ≡ ordered rows.old.items) }
{
    rows.sort_by_key(|r| (r.at, r.code, r.param))?;
    Ok(())
}
