// Which clause comes next at the end of a tenth.
ghost use Rattle.std.specs.Prelude.{◌≡◌, ◌↔◌, ◌+◌, ◌<◌, ◌≤◌, ℕ, List, [], ◌∷◌, true, IsTrue, IfSome, length, slice_index_or, IfOk, OnOk};
ghost use Rattle.rule_audit.specs.Index.{is_picked, AreChannels, IsNext, IsNextDue};
ghost use Rattle.rule_audit.specs.Pass.{spec_at, IsKnownRow, IsReady};

use crate::hour::AuditedHour;
use sig_base::NoMemory;
use std::alloc::Global;

// Whether the channel is in the list.
fn has_channel(channels: &[u16], channel: u16) -> bool
    ensures { IsTrue result ↔ ((k : ℕ) × (k < length channels.now)
        × (slice_index_or channels.now k 0 ≡ channel)) }
{
    for i in 0..channels.len() {
        if channels[i] == channel {
            return true;
        }
    }
    false
}

// Adds the channel of one row more, where it has a rule and isn't there yet.
fn add_channel(channels: &mut Vec<u16>, channel: u16, count: usize) -> Result<(), NoMemory>
    ensures { OnOk result ((own : List ℕ) (f t : ℕ) → slice_index_or own t 0 ≡ channel → f ≤ t
        → AreChannels own count f t channels.old.items
        → AreChannels own count f (t + 1) channels.new.items) }
{
    if (channel as usize) < count && !has_channel(channels.as_slice(), channel) {
        channels.push(channel)?;
    }
    Ok(())
}

/// The channels of the rows from `first` up to `end` that have a rule, by their places among the
/// specs.
pub(crate) fn channels_of(
    alloc: Global,
    hour: &AuditedHour<'_>,
    first: usize,
    end: usize,
) -> Result<Vec<u16>, NoMemory>
    requires ready { IsReady hour.now }
    requires range { first ≤ end }
    requires end { end ≤ length hour.now.rows.now }
    ensures { IfOk result (λ v. AreChannels hour.now.own.now (length hour.now.specs.now) first end
        v.items) }
{
    let count = hour.specs.len();
    let mut channels = Vec::new(alloc);
    for index in first..end {
        add_channel(&mut channels, hour.own[index], count)?;
    }
    Ok(channels)
}

// The first row from this one on up to `end` that has a rule, or `end`.
fn ruled_row(hour: &AuditedHour<'_>, first: usize, end: usize) -> usize
    requires ready { IsReady hour.now }
    requires range { first ≤ end }
    requires end { end ≤ length hour.now.rows.now }
    ensures from { first ≤ result }
    ensures within { result ≤ end }
    ensures none { (j : ℕ) → first ≤ j → j < result
        → length hour.now.specs.now ≤ slice_index_or hour.now.own.now j 0 }
    ensures ruled { result < end
        → slice_index_or hour.now.own.now result 0 < length hour.now.specs.now }
{
    let count = hour.specs.len();
    for index in first..end {
        if (hour.own[index] as usize) < count {
            return index;
        }
    }
    end
}

// Whether each row from this one on up to `end` that has a rule is of the channel.
fn are_of(hour: &AuditedHour<'_>, row: usize, end: usize, channel: u16) -> bool
    requires ready { IsReady hour.now }
    requires end { end ≤ length hour.now.rows.now }
    ensures { IsTrue result ↔ ((j : ℕ) → row ≤ j → j < end
        → slice_index_or hour.now.own.now j 0 < length hour.now.specs.now
        → slice_index_or hour.now.own.now j 0 ≡ channel) }
{
    let count = hour.specs.len();
    for index in row..end {
        let own = hour.own[index];
        if own != channel && (own as usize) < count {
            return false;
        }
    }
    true
}

/// The channel of the rows from `first` up to `end` that have a rule, where these are of one.
pub(crate) fn lone_channel(hour: &AuditedHour<'_>, first: usize, end: usize) -> Option<u16>
    requires ready { IsReady hour.now }
    requires range { first ≤ end }
    requires end { end ≤ length hour.now.rows.now }
    ensures { IfSome result (λ c. AreChannels hour.now.own.now (length hour.now.specs.now) first end
        (c ∷ [])) }
{
    let row = ruled_row(hour, first, end);
    if row < end {
        let channel = hour.own[row];
        if are_of(hour, row, end, channel) {
            return Some(channel);
        }
    }
    None
}

/// The first place from this one on of a clause of the channel, or the number of rules.
pub(crate) fn next_of(hour: &AuditedHour<'_>, channel: u16, from: usize) -> usize
    requires ready { IsReady hour.now }
    requires channel { channel < length hour.now.specs.now }
    requires from { from ≤ length hour.now.rules.now }
    ensures { IsNext (is_picked hour.now.specs.now hour.now.rules.now true
        (spec_at hour.now channel).channel) (length hour.now.rules.now) from result }
{
    hour.clauses[channel as usize].next(hour.rules.len(), from)
}

/// The first place from this one on of a clause of one of the channels, which are those of some
/// rows, or the number of rules.
pub(crate) fn next_due(hour: &AuditedHour<'_>, channels: &[u16], from: usize) -> usize
    requires ready { IsReady hour.now }
    requires channels { (k : ℕ) → k < length channels.now
        → slice_index_or channels.now k 0 < length hour.now.specs.now }
    requires from { from ≤ length hour.now.rules.now }
    ensures { (f t : ℕ) → t ≤ length hour.now.rows.now
        → ((j : ℕ) → f ≤ j → j < t → IsKnownRow hour.now j)
        → AreChannels hour.now.own.now (length hour.now.specs.now) f t channels.now
        → IsNextDue hour.now.specs.now hour.now.rules.now hour.now.rows.now f t from result }
{
    let mut least = hour.rules.len();
    for index in 0..channels.len() {
        let next = next_of(hour, channels[index], from);
        if next == from {
            return from;
        }
        if next < least {
            least = next;
        }
    }
    least
}
