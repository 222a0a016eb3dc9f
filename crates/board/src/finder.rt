// Which of the channels a row is of, and its letter there.
ghost use Rattle.std.specs.Prelude.{◌≤◌, length, IfOk};
ghost use Rattle.board.specs.Finding.{IsFinder, IsFound};
ghost use Rattle.board.specs.SpecPlaces.{IsTable};

use crate::spec_table::SpecTable;
use channel_tables::{Spec, letter_of_kind};
use event_codes::channel_of;
use sig_base::NoMemory;
use std::alloc::Global;

// At most so many answers are kept.
const KEPT: usize = 1_024;

/// What a code and a parameter were found to be.
#[derive(Clone, Copy)]
pub struct Kept {
    code: u8,
    param: u16,
    found: Option<(u16, u8)>,
}

/// Finds for a code and a parameter to which of the specs' channels they belong, and their letter.
/// The same few come again and again, so it keeps its answers.
#[derive(Drop)]
pub struct Finder {
    table: SpecTable,
    kept: Vec<Kept>,
}

impl Finder {
    /// Over so many rows: more answers than that need not be kept.
    pub fn new(alloc: Global, specs: &[Spec], rows: usize) -> Result<Finder, NoMemory>
        requires { length specs.now ≤ 60000 }
        ensures { IfOk result (λ f. IsFinder specs.now f) }
    {
        let table = SpecTable::new(alloc, specs)?;
        let found = find(specs, &table, 0, 0);
        let first = Kept {
            code: 0,
            param: 0,
            found,
        };
        let kept = vec![in alloc; first; rows.min(KEPT)]?;
        Ok(Finder { table, kept })
    }

    /// The place among the specs of the channel to which they belong, and their letter.
    pub fn find(&mut self, specs: &[Spec], code: u8, param: u16) -> Option<(u16, u8)>
        requires { IsFinder specs.now self.old }
        ensures found { IsFound specs.now code param result }
        ensures finder { IsFinder specs.now self.new }
    {
        let at = (code as usize * 129 + param as usize) % KEPT;
        if at >= self.kept.len() {
            return find(specs, &self.table, code, param);
        }
        let last = self.kept[at];
        if last.code == code && last.param == param {
            return last.found;
        }
        let found = find(specs, &self.table, code, param);
        self.kept[at] = Kept { code, param, found };
        found
    }
}

// The place of the spec to whose channel the event belongs, and its letter.
fn find(specs: &[Spec], table: &SpecTable, code: u8, param: u16) -> Option<(u16, u8)>
    requires { IsTable specs.now table.now }
    ensures { IsFound specs.now code param result }
{
    let channel = channel_of(code, param)?;
    let place = table.place_of(channel)?;
    let letter = letter_of_kind(channel.kind, code, param)?;
    Some((place, letter))
}
