// Writes the rows of an hour as bytes.
ghost use Rattle.std.specs.Prelude.{◌≡◌, ◌+◌, ◌*◌, ◌^◌, ◌<◌, ◌≤◌, ◌++◌, true, [], IfOk, OnOk, Ok};
ghost use Rattle.std.specs.List.{AllByRecursion};
ghost use Rattle.sig_base.specs.HourRows.{AreRowsOf};
ghost use Rattle.sig_base.specs.Reads.{raised};
ghost use Rattle.row_reader.specs.Repeats.{HasNoRepeat};
ghost use Rattle.row_reader.specs.Signal.{is_signal};
ghost use Rattle.hour_pack.specs.Grammar.{IsEvent, packed, row_bytes, rows_bytes};
ghost use Rattle.hour_pack.specs.Reading.{reading};

use crate::head::put_head;
use crate::number::put_number;
use sig_base::{Hour, HourRows, NoMemory, Reads, Row, Window};
use std::alloc::Global;

fn put_row(out: &mut Vec<u8>, last: u32, row: Row) -> Result<(), NoMemory>
    requires low { last ≤ row.at }
    requires near { row.at < last + 2 ^ 21 }
    ensures value { OnOk result (out.new.items ≡ out.old.items ++ row_bytes last row) }
    ensures event { IsEvent row }
{
    put_number(out, row.at - last)?;
    out.push(row.code)?;
    put_number(out, row.param as u32)?;
    Ok(())
}

fn put_rows(out: &mut Vec<u8>, hour: Hour, rows: &[Row]) -> Result<(), NoMemory>
    requires { AreRowsOf hour rows.now }
    ensures value { OnOk result
        (out.new.items ≡ out.old.items ++ rows_bytes (36000 * hour) rows.now) }
    ensures events { OnOk result (AllByRecursion IsEvent rows.now) }
{
    let mut last = 36_000 * hour;
    for row in rows {
        put_row(out, last, *row)?;
        last = row.at;
    }
    Ok(())
}

/// The bytes of this hour of this signal: they are the same wherever the signal, the hour's stamp
/// and the rows are the same.
///
/// The signal has 1 to 32 bytes from 0x21 to 0x7E without comma and double quote. `has_repeat`
/// tells whether the rows have a repeat.
pub fn pack<L>(
    alloc: Global,
    signal: &str,
    window: &Window,
    rows: &HourRows<L>,
    reads: &mut Reads<L>,
) -> Result<Vec<u8>, NoMemory>
    requires signal { is_signal signal.now ≡ true }
    requires hour { rows.now.hour < window.now.hours }
    requires no_repeat { HasNoRepeat [] rows.now.rows }
    ensures packed { IfOk result
        (λ v. v.items ≡ packed signal.now window.now rows.now.hour rows.now.rows) }
    // They are read as these rows.
    ensures again { IfOk result
        (λ v. reading signal.now window.now rows.now.hour v.items ≡ Ok rows.now.rows) }
    ensures raised { reads.new ≡ raised reads.old rows.now.hour }
{
    let hour = rows.hour();
    let rows = rows.show(reads);
    let mut out = Vec::new(alloc);
    put_head(&mut out, signal, window, hour)?;
    out.extend_from_slice(&(rows.len() as u32).to_be_bytes())?;
    put_rows(&mut out, hour, rows)?;
    Ok(out)
}
