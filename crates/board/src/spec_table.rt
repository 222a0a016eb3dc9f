// The place of each channel among the specs, without a search.
ghost use Rattle.std.specs.Prelude.{◌≡◌, ◌≢◌, ℕ, ◌<◌, ◌≤◌, List, length, slice_index_or, MatchOption, IfOk};
ghost use Rattle.channel_tables.specs.declared.spec.Spec.{Spec};
ghost use Rattle.board.specs.Logs.{no_spec};
ghost use Rattle.board.specs.SpecPlaces.{AreCells, HaveCells, IsPlaceAmong, IsTable};

use channel_tables::Spec;
use event_codes::Channel;
use sig_base::NoMemory;
use std::alloc::Global;
use std::marker::Model;

/// For each channel its place among the specs, from 0, or 65,535 where it is not among them.
#[derive(Drop)]
pub struct SpecTable {
    cells: Vec<u16>,
}

impl Model for SpecTable {
    ghost use Rattle.std.specs.Prelude.{List, ℕ};

    ghost Value = { List ℕ };

    ghost view = { λ t. t.cells.items };
}

impl SpecTable {
    /// The table of the specs.
    pub fn new(alloc: Global, specs: &[Spec]) -> Result<SpecTable, NoMemory>
        requires { length specs.now ≤ 60000 }
        ensures { IfOk result (λ t. IsTable specs.now t) }
    {
        let mut cells = vec![in alloc; 65_535u16; cell_count(specs)]?;
        for i in 0..specs.len() {
            cells[specs[i].channel.cell()] = i as u16;
        }
        Ok(SpecTable { cells })
    }

    /// The place of the channel among the specs of the table.
    pub fn place_of(&self, channel: Channel) -> Option<u16>
        ensures { (specs : List Spec) → IsTable specs self.now → IsPlaceAmong specs channel result }
    {
        let cell = channel.cell();
        if cell >= self.cells.len() {
            return None;
        }
        let place = self.cells[cell];
        if place < 65_535 {
            return Some(place);
        }
        None
    }
}

// As many cells as the specs need.
fn cell_count(specs: &[Spec]) -> usize
    ensures { HaveCells specs.now (length specs.now) result }
{
    let mut count = 0;
    for i in 0..specs.len() {
        count = count.max(specs[i].channel.cell() + 1);
    }
    count
}
