// All tables of a configuration, in their order.
ghost use Rattle.std.specs.Prelude.{◌≡◌, List, Ok};
ghost use Rattle.ring_config.specs.Reading.{Gives};
ghost use Rattle.ring_config.specs.Settings.{parts_of};
ghost use Rattle.ring_config.specs.Seen.{entry_seen, parts_seen};

use crate::error::{ConfigError, KeyName};
use crate::format::details::{Details, read_details};
use crate::format::document::{Head, detail_tables, layout_tables, read_head};
use crate::format::layout::{Layout, read_layout};
use crate::format::reading::{Entry, only};
use std::alloc::Global;

/// What all tables say.
#[derive(Drop)]
pub(crate) struct Parts {
    pub(crate) head: Head,
    pub(crate) layout: Layout,
    pub(crate) details: Details,
}

#[tactic(auto, unfolding(crate::specs::Settings::parts_of))]
pub(crate) fn read_parts(alloc: Global, document: &Entry<'_>) -> Result<Parts, ConfigError>
    ensures { Gives parts_seen result (parts_of (entry_seen document.now)) }
{
    let listed = &[
        KeyName::Signal,
        KeyName::Start,
        KeyName::Hours,
        KeyName::Coordination,
        KeyName::Phase,
        KeyName::Ped,
        KeyName::Overlap,
        KeyName::Preempt,
        KeyName::Conflict,
        KeyName::Allow,
        KeyName::Floor,
        KeyName::Interval,
        KeyName::Approach,
    ];
    only(listed, document)?;
    let head = read_head(alloc, document)?;
    let layout_tables = layout_tables(alloc, document)?;
    let detail_tables = detail_tables(alloc, document)?;
    let layout = read_layout(alloc, &layout_tables)?;
    let details = read_details(alloc, &layout, &detail_tables)?;
    Ok(Parts {
        head,
        layout,
        details,
    })
}
