// The last row of each group.
ghost use Rattle.std.specs.Prelude.{◌≡◌, ◌≤◌, ◌*◌, List, Option, Some, None, length, IfOk, OnOk, OnErr};
ghost use Rattle.event_codes.specs.declared.channels.Group.{Group as Group_type};
ghost use Rattle.sig_base.specs.declared.values.Row.{Row as Row_type};
ghost use Rattle.row_reader.specs.Repeats.{group_of_row};
ghost use Rattle.row_reader.specs.Last.{IsWithAll, IsWithLast, is_row};
ghost use Rattle.row_reader.specs.Noted.{look_up};

use crate::repeats::{group_of_row, is_row};
use event_codes::Group;
use sig_base::{NoMemory, Row};
use std::alloc::Global;
use std::collections::BTreeMap;

// The places of the table of channels.
const CELLS: usize = 2048;

/// The last row of each group: those of channels in a table by channel, since most rows are theirs,
/// all others in the order of code and parameter. There is no table before the first row.
#[derive(Drop)]
pub(crate) struct Lasts {
    of: Vec<Option<Row>>,
    alone: BTreeMap<(u8, u16), Row>,
}

impl Lasts {
    /// No group has a row.
    pub fn none(alloc: Global) -> Lasts
        ensures { (g : Group_type) → look_up result g ≡ None }
    {
        Lasts {
            of: Vec::new(alloc),
            alone: BTreeMap::new(alloc),
        }
    }

    // Makes the table, where there is none yet.
    fn make_table(&mut self) -> Result<(), NoMemory>
        ensures full { OnOk result (2048 ≤ length self.new.of.items) }
        ensures same { (g : Group_type) → look_up self.new g ≡ look_up self.old g }
    {
        if self.of.len() < CELLS {
            self.of.resize(CELLS, None)?;
        }
        Ok(())
    }

    // Puts this row in place of the last one of its group, which it answers.
    #[tactic(auto, unfolding(event_codes::specs::Channels::same_group))]
    fn put(&mut self, group: Group, row: Row) -> Result<Option<Row>, NoMemory>
        requires full { 2048 ≤ length self.old.of.items }
        requires group { group ≡ group_of_row row }
        ensures with { OnOk result (IsWithLast row (look_up self.old) (look_up self.new)) }
        ensures was { IfOk result (λ last. last ≡ look_up self.old group) }
    {
        match group {
            Group::Of(channel) => Ok(self.of[channel.cell()].replace(row)),
            Group::Alone { code, param } => Ok(self.alone.insert((code, param), row)?),
        }
    }

    /// Notes that this row is the last one of its group, and tells whether it was that before.
    #[inline(never)]
    pub fn note(&mut self, row: Row) -> Result<bool, NoMemory>
        ensures with { OnOk result (IsWithLast row (look_up self.old) (look_up self.new)) }
        ensures was { IfOk result (λ b. b ≡ is_row row (look_up self.old (group_of_row row))) }
    {
        self.make_table()?;
        let last = self.put(group_of_row(row), row)?;
        Ok(is_row(row, last))
    }

    /// Notes these rows, one after another.
    pub fn note_all(&mut self, rows: &[Row]) -> Result<(), NoMemory>
        ensures { OnOk result (IsWithAll rows.now (look_up self.old) (look_up self.new)) }
    {
        for row in rows {
            self.note(*row)?;
        }
        Ok(())
    }
}
