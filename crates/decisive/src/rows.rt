// The rows that are candidates for a window's ends, and what is known of their tenths.
ghost use Rattle.std.specs.Prelude.{◌≡◌, ℕ, ◌<◌, ◌≤◌, Some, length, slice_index_or};
ghost use Rattle.gap_map.specs.Stretches.{FollowOn, known_at};
ghost use Rattle.board.specs.Channels.{is_channel};
ghost use Rattle.board.specs.Logs.{no_spec};
ghost use Rattle.board.specs.Moves.{RowsIn, count_before};
ghost use Rattle.decisive.specs.Breaks.{FitsParts};
ghost use Rattle.decisive.specs.Candidates.{is_row_of_parts};

use crate::parts::Part;
use channel_tables::Spec;
use event_codes::{Channel, channel_of};
use gap_map::Stretch;
use sig_base::Row;

/// Whether the tenth is known by the stretches, which follow one another from no later tenth on.
pub(crate) fn is_known(stretches: &[Stretch], tenth: u32) -> bool
    ensures { (f t : ℕ) → FollowOn f t stretches.now → f ≤ tenth
        → result ≡ known_at stretches.now tenth }
{
    let place = stretches.partition_point(|stretch| stretch.to <= tenth);
    place < stretches.len() && stretches[place].known
}

/// The number of first rows before the tenth, of rows in order.
pub(crate) fn rows_before(rows: &[Row], tenth: u64) -> usize
    ensures count { (f t : ℕ) → RowsIn f t rows.now → result ≡ count_before tenth rows.now }
    ensures within { result ≤ length rows.now }
{
    rows.partition_point(|row| (row.at as u64) < tenth)
}

fn is_same(a: Channel, b: Channel) -> bool
    ensures { result ≡ is_channel a (Some b) }
{
    a == b
}

fn is_of(specs: &[Spec], spec: u16, channel: Option<Channel>) -> bool
    requires { spec < length specs.now }
    ensures { result ≡ is_channel (slice_index_or specs.now spec no_spec).channel channel }
{
    match channel {
        Some(channel) => is_same(specs[spec as usize].channel, channel),
        None => false,
    }
}

/// Whether the row is of the channel of one of the parts.
pub(crate) fn is_row_of_parts(specs: &[Spec], parts: &[Part], row: Row) -> bool
    requires { FitsParts specs.now parts.now }
    ensures { result ≡ is_row_of_parts specs.now parts.now row }
{
    let channel = channel_of(row.code, row.param);
    for i in 0..parts.len() {
        if is_of(specs, parts[i].spec, channel) {
            return true;
        }
    }
    false
}
