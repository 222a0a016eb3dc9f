// Looking for a repeat from the last row on.
ghost use Rattle.std.specs.Prelude.{◌≡◌, ◌+◌, true, false};
ghost use Rattle.sig_base.specs.HourRows.{RiseIn};
ghost use Rattle.row_reader.specs.Repeats.{is_repeat, same_event};

use crate::repeats::group_of_row;
use sig_base::Row;

fn same_event(a: Row, b: Row) -> bool
    ensures { result ≡ same_event a b }
{
    a.code == b.code && a.param == b.param
}

// Whether one of the rows at this row's tenth has its code and parameter. Without one, it can't be
// a repeat.
fn has_event(kept: &[Row], row: Row) -> bool
    requires { RiseIn 0 (row.at + 1) kept.now }
    ensures { result ≡ false → is_repeat kept.now row ≡ false }
{
    let mut left = kept.len();
    while left > 0 {
        let last = kept[left - 1];
        if last.at != row.at {
            return false;
        }
        if same_event(last, row) {
            return true;
        }
        left -= 1;
    }
    false
}

// Whether the last row of this row's group at its tenth has its code and parameter.
#[inline(never)]
fn ends_group(kept: &[Row], row: Row) -> bool
    requires { RiseIn 0 (row.at + 1) kept.now }
    ensures { result ≡ is_repeat kept.now row }
{
    let group = group_of_row(row);
    let mut left = kept.len();
    while left > 0 {
        let last = kept[left - 1];
        if last.at != row.at {
            return false;
        }
        if group.same(group_of_row(last)) {
            return same_event(last, row);
        }
        left -= 1;
    }
    false
}

/// Whether this row is a repeat behind those that are kept, none of which is later. It looks at the
/// rows of its tenth alone, from the last one on.
pub(crate) fn is_repeat_behind(kept: &[Row], row: Row) -> bool
    requires { RiseIn 0 (row.at + 1) kept.now }
    ensures { result ≡ is_repeat kept.now row }
{
    has_event(kept, row) && ends_group(kept, row)
}
