// Rows that are kept, with what is noted of them.
ghost use Rattle.std.specs.Prelude.{◌≡◌, ◌+◌, ◌++◌, ◌∷◌, [], true, false, length, IfOk, MatchOption};
ghost use Rattle.sig_base.specs.HourRows.{RiseIn};
ghost use Rattle.row_reader.specs.Repeats.{is_repeat};

use crate::noted::Noted;
use sig_base::{NoMemory, Row};
use std::alloc::Global;
use std::marker::Model;

/// Rows in row order, seen as a list of them, which tell of a further row whether it repeats one:
/// whether the last row of its group at its tenth has its code and parameter. That takes a look at a
/// few rows, or a look-up, however many rows stand at one tenth.
#[derive(Drop)]
pub struct KeptRows {
    rows: Vec<Row>,
    noted: Noted,
}

impl Model for KeptRows {
    ghost use Rattle.std.specs.Prelude.{List};
    ghost use Rattle.sig_base.specs.declared.values.Row.{Row};
    ghost use Rattle.row_reader.specs.Noted.{IsNoted};

    ghost Value = { List Row };

    ghost view = { λ k. k.rows.items };

    ghost invariant = { λ k. IsNoted k.noted k.rows.items };
}

impl KeptRows {
    /// None, with room for so many.
    pub fn with_room(alloc: Global, room: usize) -> Result<KeptRows, NoMemory>
        ensures { IfOk result (λ k. k ≡ []) }
    {
        let rows = Vec::with_capacity(alloc, room)?;
        Ok(KeptRows {
            rows,
            noted: Noted::none(alloc),
        })
    }

    /// How many there are.
    pub fn len(&self) -> usize
        ensures { result ≡ length self.now }
    {
        self.rows.len()
    }

    /// The rows and this one behind them, none of which is later, or nothing where it is a repeat
    /// behind them.
    pub fn with(self, row: Row) -> Result<Option<KeptRows>, NoMemory>
        requires { RiseIn 0 (row.at + 1) self }
        ensures { IfOk result (λ o. MatchOption o (is_repeat self row ≡ true)
            (λ k. (is_repeat self row ≡ false) × (k ≡ self ++ row ∷ []))) }
    {
        let KeptRows {
            mut rows,
            mut noted,
        } = self;
        if noted.note_new(&rows, row)? {
            return Ok(None);
        }
        rows.push(row)?;
        Ok(Some(KeptRows { rows, noted }))
    }

    /// The rows alone.
    pub fn into_rows(self) -> Vec<Row>
        ensures { result.items ≡ self }
    {
        let KeptRows { rows, noted } = self;
        drop(noted);
        rows
    }
}
