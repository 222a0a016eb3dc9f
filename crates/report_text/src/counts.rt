// The text of a count.
ghost use Rattle.std.specs.Prelude.{◌≡◌, ◌<◌, ◌≤◌, ◌+◌, ◌∷◌, [], length, slice_index, slice_set, codes, decimal};
ghost use Rattle.outside.specs.Sink.{Puts};
ghost use Rattle.report_text.specs.Line.{line_of};
ghost use Rattle.report_text.specs.Counts.{IsTally, code_count_line, count_text};

use event_codes::name_of;
use itoa::Buffer;
use outside::{PutFailed, Sink, put_parts};
use sig_base::Row;

// Counts the rows of each code in one pass.
fn tally(rows: &[Row]) -> [u32; 256]
    requires { length rows.now ≤ 400000 }
    ensures { IsTally result rows.now }
{
    let mut counts = [0; 256];
    for row in rows {
        count_one(&mut counts, row.code);
    }
    counts
}

fn count_one(counts: &mut [u32; 256], code: u8)
    requires { slice_index counts.old code < 400000 }
    ensures { counts.new ≡ slice_set counts.old code (slice_index counts.old code + 1) }
{
    counts[code as usize] += 1;
}

fn put_code<K: Sink>(code: u8, count: u32, sink: &mut K) -> Result<(), PutFailed>
    ensures { Puts (K.taken sink.old) (K.taken sink.new) (code_count_line code count) result }
{
    if count == 0 {
        return Ok(());
    }
    let mut number = Buffer::new();
    let mut amount = Buffer::new();
    put_parts(
        sink,
        &[
            b"code ",
            number.format(code).as_bytes(),
            b" ",
            name_of(code).as_bytes(),
            b" ",
            amount.format(count).as_bytes(),
            b"\n",
        ],
    )
}

fn put_head<K: Sink>(rows: u32, repeats: u32, sink: &mut K) -> Result<(), PutFailed>
    ensures { Puts (K.taken sink.old) (K.taken sink.new)
        (line_of (codes "rows " ∷ decimal rows ∷ codes " repeats " ∷ decimal repeats ∷ [])) result }
{
    let mut count = Buffer::new();
    let mut dropped = Buffer::new();
    put_parts(
        sink,
        &[
            b"rows ",
            count.format(rows).as_bytes(),
            b" repeats ",
            dropped.format(repeats).as_bytes(),
            b"\n",
        ],
    )
}

/// Writes how many rows and repeats there are, and how many rows of each code.
pub fn put_counts<K: Sink>(rows: &[Row], repeats: u32, sink: &mut K) -> Result<(), PutFailed>
    requires { length rows.now ≤ 400000 }
    ensures { Puts (K.taken sink.old) (K.taken sink.new) (count_text rows.now repeats) result }
{
    put_head(rows.len() as u32, repeats, sink)?;
    let counts = tally(rows);
    for code in 0..256u32 {
        put_code(code as u8, counts[code as usize], sink)?;
    }
    Ok(())
}
