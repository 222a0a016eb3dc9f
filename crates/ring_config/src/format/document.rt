// The document itself: its own keys, and its arrays of tables.
ghost use Rattle.std.specs.Prelude.{◌≡◌, ◌<◌, List, Ok, IfOk, false, [], map, option_map};
ghost use Rattle.sig_base.specs.Window.{IsDay};
ghost use Rattle.toml.specs.View.{view, items_view, table_view};
ghost use Rattle.ring_config.specs.Reading.{Gives, good, required, defaulted};
ghost use Rattle.ring_config.specs.Values.{signal, start, window, tables, tables_from, yes_or_no};
ghost use Rattle.ring_config.specs.Tables.{top_of, layout_arrays_of, detail_arrays_of};
ghost use Rattle.ring_config.specs.Seen.{entry_seen, head_seen, layout_tables_seen, detail_tables_seen};

use crate::error::{ConfigError, KeyAt, KeyName};
use crate::format::reading::{Entry, good, place, present, value_at};
use crate::format::values::{signal, start, window, yes_or_no};
use sig_base::Window;
use std::alloc::Global;
use toml::{Table, Value};

/// The keys of the document that are no arrays.
#[derive(Drop)]
pub(crate) struct Head {
    pub(crate) signal: String,
    pub(crate) window: Window,
    pub(crate) coordination: bool,
}

/// The tables of what the intersection has.
#[derive(Drop)]
pub(crate) struct LayoutTables<'a> {
    pub(crate) phase: Vec<&'a Table>,
    pub(crate) ped: Vec<&'a Table>,
    pub(crate) overlap: Vec<&'a Table>,
    pub(crate) preempt: Vec<&'a Table>,
}

/// The tables of what is said of it.
#[derive(Drop)]
pub(crate) struct DetailTables<'a> {
    pub(crate) conflict: Vec<&'a Table>,
    pub(crate) allow: Vec<&'a Table>,
    pub(crate) floor: Vec<&'a Table>,
    pub(crate) interval: Vec<&'a Table>,
    pub(crate) approach: Vec<&'a Table>,
}

#[tactic(auto, unfolding(crate::specs::Reading::required))]
fn required_signal<'a>(entry: &Entry<'a>) -> Result<&'a str, ConfigError>
    ensures { Gives (λ s. s.now) result (required signal KeyName.Signal (entry_seen entry.now)) }
{
    let value = present(KeyName::Signal, entry)?;
    match signal(value) {
        Some(text) => Ok(text),
        None => Err(ConfigError::BadValue(place(KeyName::Signal, entry))),
    }
}

#[tactic(auto, unfolding(crate::specs::Reading::required))]
fn required_start(entry: &Entry<'_>) -> Result<(i64, u8), ConfigError>
    ensures reads { Gives (λ s. s) result (required start KeyName.Start (entry_seen entry.now)) }
    ensures day { IfOk result (λ s. IsDay s.0) }
    ensures hour { IfOk result (λ s. s.1 < 24) }
{
    let value = present(KeyName::Start, entry)?;
    match start(value) {
        Some(first) => Ok(first),
        None => Err(ConfigError::BadValue(place(KeyName::Start, entry))),
    }
}

#[tactic(auto, unfolding(crate::specs::Reading::required))]
fn required_window(first: (i64, u8), entry: &Entry<'_>) -> Result<Window, ConfigError>
    requires day { IsDay first.0 }
    requires hour { first.1 < 24 }
    ensures { Gives (λ w. w) result (required (window first) KeyName.Hours (entry_seen entry.now)) }
{
    let value = present(KeyName::Hours, entry)?;
    good(place(KeyName::Hours, entry), window(first, value))
}

#[tactic(auto, unfolding(crate::specs::Reading::defaulted))]
fn coordination(entry: &Entry<'_>) -> Result<bool, ConfigError>
    ensures { Gives (λ b. b) result (defaulted false yes_or_no KeyName.Coordination
        (entry_seen entry.now)) }
{
    match value_at(KeyName::Coordination, entry) {
        None => Ok(false),
        Some(value) => good(place(KeyName::Coordination, entry), yes_or_no(value)),
    }
}

/// The keys of the document that are no arrays.
#[tactic(auto, unfolding(crate::specs::Tables::top_of))]
pub(crate) fn read_head(alloc: Global, entry: &Entry<'_>) -> Result<Head, ConfigError>
    ensures { Gives head_seen result (top_of (entry_seen entry.now)) }
{
    let signal = required_signal(entry)?;
    let first = required_start(entry)?;
    let window = required_window(first, entry)?;
    let coordination = coordination(entry)?;
    Ok(Head {
        signal: String::from_str(alloc, signal)?,
        window,
        coordination,
    })
}

fn tables_in<'a>(
    alloc: Global,
    at: KeyAt,
    items: &'a [Value],
) -> Result<Vec<&'a Table>, ConfigError>
    ensures { Gives (λ v. map (λ t. table_view t.now) v.items) result
        (good at (tables_from [] (items_view items.entry.now))) }
{
    let mut tables = Vec::new(alloc);
    for item in items {
        match item.as_table() {
            Some(table) => tables.push(table)?,
            None => return Err(ConfigError::BadValue(at)),
        }
    }
    Ok(tables)
}

#[tactic(auto, unfolding(crate::specs::Values::tables))]
fn tables<'a>(alloc: Global, at: KeyAt, value: &'a Value) -> Result<Vec<&'a Table>, ConfigError>
    ensures { Gives (λ v. map (λ t. table_view t.now) v.items) result
        (good at (tables (view value.entry.now))) }
{
    match value.as_array() {
        Some(items) => tables_in(alloc, at, items.as_slice()),
        None => Err(ConfigError::BadValue(at)),
    }
}

// The tables of an array, none where the document hasn't got it.
#[tactic(auto, unfolding(crate::specs::Reading::defaulted))]
fn array<'a>(alloc: Global, key: KeyName, entry: &Entry<'a>) -> Result<Vec<&'a Table>, ConfigError>
    ensures { Gives (λ v. map (λ t. table_view t.now) v.items) result
        (defaulted [] tables key (entry_seen entry.now)) }
{
    match value_at(key, entry) {
        None => Ok(Vec::new(alloc)),
        Some(value) => tables(alloc, place(key, entry), value),
    }
}

#[tactic(auto, unfolding(crate::specs::Tables::layout_arrays_of))]
pub(crate) fn layout_tables<'a>(
    alloc: Global,
    entry: &Entry<'a>,
) -> Result<LayoutTables<'a>, ConfigError>
    ensures { Gives layout_tables_seen result (layout_arrays_of (entry_seen entry.now)) }
{
    let phase = array(alloc, KeyName::Phase, entry)?;
    let ped = array(alloc, KeyName::Ped, entry)?;
    let overlap = array(alloc, KeyName::Overlap, entry)?;
    let preempt = array(alloc, KeyName::Preempt, entry)?;
    Ok(LayoutTables {
        phase,
        ped,
        overlap,
        preempt,
    })
}

#[tactic(auto, unfolding(crate::specs::Tables::detail_arrays_of))]
pub(crate) fn detail_tables<'a>(
    alloc: Global,
    entry: &Entry<'a>,
) -> Result<DetailTables<'a>, ConfigError>
    ensures { Gives detail_tables_seen result (detail_arrays_of (entry_seen entry.now)) }
{
    let conflict = array(alloc, KeyName::Conflict, entry)?;
    let allow = array(alloc, KeyName::Allow, entry)?;
    let floor = array(alloc, KeyName::Floor, entry)?;
    let interval = array(alloc, KeyName::Interval, entry)?;
    let approach = array(alloc, KeyName::Approach, entry)?;
    Ok(DetailTables {
        conflict,
        allow,
        floor,
        interval,
        approach,
    })
}
