// What the intersection has.
ghost use Rattle.std.specs.Prelude.{◌≡◌, List, Ok};
ghost use Rattle.ring_config.specs.Reading.{Gives};
ghost use Rattle.ring_config.specs.Settings.{layout_of};
ghost use Rattle.ring_config.specs.Seen.{layout_seen, layout_tables_seen};

use crate::error::ConfigError;
use crate::format::document::LayoutTables;
use crate::format::phases::{OverlapTable, PedTable, PhaseTable, PreemptTable};
use crate::format::walk::read_entries;
use crate::items::OverlapItem;
use sig_base::PhaseItem;
use std::alloc::Global;

/// The phases, pedestrian signals, overlaps and preempts.
#[derive(Drop)]
pub(crate) struct Layout {
    pub(crate) phases: Vec<PhaseItem>,
    pub(crate) peds: Vec<u8>,
    pub(crate) overlaps: Vec<OverlapItem>,
    pub(crate) preempts: Vec<u8>,
}

#[tactic(auto, unfolding(crate::specs::Settings::layout_of))]
pub(crate) fn read_layout(alloc: Global, tables: &LayoutTables<'_>) -> Result<Layout, ConfigError>
    ensures { Gives layout_seen result (layout_of (layout_tables_seen tables.now)) }
{
    let phases = read_entries(alloc, &PhaseTable, tables.phase.as_slice())?;
    let ped_table = PedTable {
        phases: phases.as_slice(),
    };
    let peds = read_entries(alloc, &ped_table, tables.ped.as_slice())?;
    let overlap_table = OverlapTable {
        phases: phases.as_slice(),
    };
    let overlaps = read_entries(alloc, &overlap_table, tables.overlap.as_slice())?;
    let preempts = read_entries(alloc, &PreemptTable, tables.preempt.as_slice())?;
    Ok(Layout {
        phases,
        peds,
        overlaps,
        preempts,
    })
}
