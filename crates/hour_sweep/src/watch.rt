// The pass over an hour's rows and stretches.
ghost use Rattle.std.specs.Prelude.{◌≡◌, ◌≤◌, length, OnOk};
ghost use Rattle.sig_base.specs.declared.values.Row.{Row};
ghost use Rattle.hour_sweep.specs.Passes.{front, swept_rows, swept_stretch, swept};

use gap_map::Stretch;
use sig_base::{NoMemory, Row};

/// What is told each known row of an hour, in order, and each gap between them.
pub trait Watch {
    /// The value after a row.
    ghost after: { Self → Row → Self };

    /// The value after a gap.
    ghost cleared: { Self → Self };

    /// A known row.
    fn row(&mut self, row: &Row) -> Result<(), NoMemory>
        ensures { OnOk result (self.new ≡ after self.old row.now) };

    /// A stretch that isn't known.
    fn gap(&mut self)
        ensures { self.new ≡ cleared self.old };
}

fn sweep_rows<W: Watch>(watch: &mut W, rows: &[Row]) -> Result<(), NoMemory>
    ensures { OnOk result (watch.new ≡ swept_rows W.after rows.now watch.old) }
{
    for row in rows {
        watch.row(row)?;
    }
    Ok(())
}

fn sweep_stretch<W: Watch>(watch: &mut W, known: bool, rows: &[Row]) -> Result<(), NoMemory>
    ensures { OnOk result (watch.new ≡ swept_stretch W.after W.cleared known rows.now watch.old) }
{
    if known {
        sweep_rows(watch, rows)?;
    } else {
        watch.gap();
    }
    Ok(())
}

// How many rows are before this tenth, up to the first that isn't.
fn count_below(rows: &[Row], to: u32) -> usize
    ensures count { result ≡ length (front to rows.now) }
    ensures within { result ≤ length rows.now }
{
    rows.iter().take_while(|row| row.at < to).count()
}

/// One pass over an hour. Where memory ran out the watch may have been told a part of it.
pub fn sweep<W: Watch>(watch: &mut W, rows: &[Row], stretches: &[Stretch]) -> Result<(), NoMemory>
    ensures { OnOk result (watch.new ≡ swept W.after W.cleared stretches.now rows.now watch.old) }
{
    let mut left = rows;
    for stretch in stretches {
        let (here, rest) = left.split_at(count_below(left, stretch.to));
        sweep_stretch(watch, stretch.known, here)?;
        left = rest;
    }
    Ok(())
}
