// A last row of one kind with the first row of another kind since.
ghost use Rattle.std.specs.Prelude.{◌≡◌};
ghost use Rattle.other_measures.specs.LastRows.{lapse_of, last_row_after, with_first};

use sig_base::Row;

/// A last row of one kind, with the first row of another kind since.
#[derive(Clone, Copy)]
pub(crate) struct LastRow {
    pub(crate) row: Row,
    pub(crate) first: Option<Row>,
}

/// How long something ran up to a row.
#[derive(Clone, Copy)]
pub(crate) enum Lapse {
    /// Tenths of a second.
    Ran(u32),
    /// It hadn't begun since the last row.
    NotBegun,
    /// There is no last row, or a tenth since isn't known.
    Partial,
}

fn with_first(last: LastRow, row: Row) -> LastRow
    ensures { result ≡ with_first row last }
{
    match last.first {
        Some(_) => last,
        None => LastRow {
            row: last.row,
            first: Some(row),
        },
    }
}

/// The last row after one more, which is of the one kind, of the other, or of none.
pub(crate) fn last_row_after(
    is_last: bool,
    is_first: bool,
    row: Row,
    last: Option<LastRow>,
) -> Option<LastRow>
    ensures { result ≡ last_row_after is_last is_first row last }
{
    if is_last {
        return Some(LastRow { row, first: None });
    }
    if is_first {
        return match last {
            Some(last) => Some(with_first(last, row)),
            None => None,
        };
    }
    last
}

/// How long it ran up to this tenth.
pub(crate) fn lapse_of(at: u32, last: Option<LastRow>) -> Lapse
    ensures { result ≡ lapse_of at last }
{
    match last {
        None => Lapse::Partial,
        Some(last) => match last.first {
            None => Lapse::NotBegun,
            Some(first) => Lapse::Ran(at.saturating_sub(first.at)),
        },
    }
}
