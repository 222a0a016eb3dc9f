// Rows that were logged twice, found without memory.
ghost use Rattle.std.specs.Prelude.{◌≡◌, ◌↔◌, ◌+◌, ◌≤◌, false, [], ◌∷◌, ◌++◌, IsTrue, length, take};
ghost use Rattle.sig_base.specs.HourRows.{AreRowsOf, RiseIn};
ghost use Rattle.sig_base.specs.Reads.{raised};
ghost use Rattle.event_codes.specs.Channels.{same_group};
ghost use Rattle.row_reader.specs.Repeats.{group_of_row, is_repeat, HasNoRepeat};
ghost use Rattle.hour_pack.specs.Repeats.{HasRepeat};

use event_codes::{Group, group_of};
use sig_base::{Hour, HourRows, Reads, Row};

// The code of a state of the coordination.
const COORDINATION: u8 = 150;

#[tactic(auto, unfolding(row_reader::specs::Repeats::group_of_row))]
fn group_of_row(row: Row) -> Group
    ensures { result ≡ group_of_row row }
{
    group_of(row.code, row.param)
}

// Whether both rows are of one group. Rows of different parameters are so only where both are of
// the coordination.
#[tactic(auto, unfolding(event_codes::specs::Channels::same_group))]
fn same_group(a: Row, b: Row) -> bool
    ensures { result ≡ same_group (group_of_row a) (group_of_row b) }
{
    if a.param != b.param && (a.code != COORDINATION || b.code != COORDINATION) {
        return false;
    }
    group_of_row(a).same(group_of_row(b))
}

/// Whether this row is a repeat behind those before it, none of which is later. It looks at the
/// rows of its tenth alone, from the last one on.
pub(crate) fn is_repeat(before: &[Row], row: Row) -> bool
    requires rise { RiseIn 0 (row.at + 1) before.now }
    requires few { length before.now ≤ 400000 }
    ensures { result ≡ is_repeat before.now row }
{
    let mut rest = before;
    while let [front @ .., last] = rest {
        if last.at != row.at {
            return false;
        }
        if same_group(row, *last) {
            return last.code == row.code && last.param == row.param;
        }
        rest = front;
    }
    false
}

fn any_repeat(hour: Hour, rows: &[Row]) -> bool
    requires { AreRowsOf hour rows.now }
    ensures value { IsTrue result ↔ HasRepeat rows.now }
    ensures none { (result ≡ false) ↔ HasNoRepeat [] rows.now }
{
    for (i, row) in rows.iter().enumerate() {
        if is_repeat(&rows[..i], *row) {
            return true;
        }
    }
    false
}

/// Whether a row of this hour is a repeat: the last row of its group before it at its tenth has its
/// code and parameter. It can't run out of memory. The time is that of a pass over the rows, and for
/// each row over those of its tenth before it.
pub fn has_repeat<L>(rows: &HourRows<L>, reads: &mut Reads<L>) -> bool
    ensures value { IsTrue result ↔ HasRepeat rows.now.rows }
    ensures none { (result ≡ false) ↔ HasNoRepeat [] rows.now.rows }
    ensures raised { reads.new ≡ raised reads.old rows.now.hour }
{
    any_repeat(rows.hour(), rows.show(reads))
}
