// What is said of the phases and channels of an intersection.
ghost use Rattle.std.specs.Prelude.{◌≡◌, List, Ok};
ghost use Rattle.ring_config.specs.Reading.{Gives};
ghost use Rattle.ring_config.specs.Settings.{details_of};
ghost use Rattle.ring_config.specs.Seen.{layout_seen, details_seen, detail_tables_seen};

use crate::channels::signal_channels;
use crate::error::{ConfigError, TableName};
use crate::format::approaches::ApproachTable;
use crate::format::document::DetailTables;
use crate::format::layout::Layout;
use crate::format::pairs::PairTable;
use crate::format::timing::{FloorTable, IntervalTable};
use crate::format::walk::read_entries;
use crate::items::{Approach, FloorItem, IntervalItem, Pair};
use std::alloc::Global;

/// The pairs of phases, the floors, the interval rules and the approaches.
#[derive(Drop)]
pub(crate) struct Details {
    pub(crate) conflicts: Vec<Pair>,
    pub(crate) allows: Vec<Pair>,
    pub(crate) floors: Vec<FloorItem>,
    pub(crate) intervals: Vec<IntervalItem>,
    pub(crate) approaches: Vec<Approach>,
}

#[tactic(auto, unfolding(crate::specs::Settings::details_of))]
pub(crate) fn read_details(
    alloc: Global,
    layout: &Layout,
    tables: &DetailTables<'_>,
) -> Result<Details, ConfigError>
    ensures { Gives details_seen result (details_of (layout_seen layout.now)
        (detail_tables_seen tables.now)) }
{
    let phases = layout.phases.as_slice();
    let channels = signal_channels(alloc, layout)?;
    let conflict_table = PairTable {
        table: TableName::Conflict,
        phases,
        barred: &[],
    };
    let conflicts = read_entries(alloc, &conflict_table, tables.conflict.as_slice())?;
    let allow_table = PairTable {
        table: TableName::Allow,
        phases,
        barred: conflicts.as_slice(),
    };
    let allows = read_entries(alloc, &allow_table, tables.allow.as_slice())?;
    let floor_table = FloorTable {
        channels: channels.as_slice(),
    };
    let floors = read_entries(alloc, &floor_table, tables.floor.as_slice())?;
    let interval_table = IntervalTable {
        channels: channels.as_slice(),
    };
    let intervals = read_entries(alloc, &interval_table, tables.interval.as_slice())?;
    let approach_table = ApproachTable { phases };
    let approaches = read_entries(alloc, &approach_table, tables.approach.as_slice())?;
    Ok(Details {
        conflicts,
        allows,
        floors,
        intervals,
        approaches,
    })
}
