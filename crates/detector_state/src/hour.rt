// The hour cut into ranges of tenths at the end of which a channel may have the same colours.
ghost use Rattle.std.specs.Prelude.{◌≡◌, ℕ, ◌<◌, ◌++◌, length, slice_index_or, IfOk, OnOk};
ghost use Rattle.channel_tables.specs.Any.{any_rules};
ghost use Rattle.channel_tables.specs.Letters.{IsNumber};
ghost use Rattle.channel_tables.specs.Spec.{rules_of};
ghost use Rattle.board.specs.Logs.{no_spec};
ghost use Rattle.detector_state.specs.Switches.{IsSwitch, colours_of, switch_spec};
ghost use Rattle.detector_state.specs.Masks.{after_letter, all_colours};
ghost use Rattle.detector_state.specs.Parts.{IsLettered, after_move, part};
ghost use Rattle.detector_state.specs.Hours.{CoversHour, TellsColours};

use crate::colours::{all, image, machine, of_states};
use crate::part::{Part, Switched};
use board::Courses;
use channel_path::Move;
use channel_tables::{AnyMachine, Spec};
use colour_machine::Mask;
use event_codes::Channel;
use gap_map::{Stretch, first_of};
use reach::Past;
use sig_base::{Hour, NoMemory, Row};
use std::alloc::Global;

// No hour has more rows.
const MOST_ROWS: usize = 400_000;

/// From tenth `at` on the channel may have these colours.
#[derive(Clone, Copy, Debug, PartialEq, Eq)]
pub struct Cursor {
    pub at: u32,
    pub mask: Mask,
}

/// Which colours an hour's rows and stretches, and the states before the hour, leave the channel at
/// the end of each tenth. The channel is a detector, a pedestrian detector or a preempt input.
pub fn switched(
    alloc: Global,
    channel: Channel,
    before: &Past,
    rows: &[Row],
    stretches: &[Stretch],
) -> Result<Switched, NoMemory>
    requires switch { IsSwitch channel.kind }
    requires number { IsNumber channel.kind channel.number }
    requires colours { length before.now ≡ colours_of channel }
    ensures covers { IfOk result (λ v. (hour : ℕ) → CoversHour hour rows.now stretches.now v) }
    ensures colours { IfOk result (λ v. (hour : ℕ)
        → TellsColours channel before.now hour rows.now stretches.now v) }
{
    let hour = first_of(stretches) / 36_000;
    if rows.len() > MOST_ROWS || hour >= 744 {
        return Ok(Switched::none(alloc));
    }
    let specs = [Spec {
        channel,
        floors: [0; 16],
    }];
    let courses = Courses::of(alloc, &specs, rows, stretches)?;
    let told = switched_along(alloc, channel, before, &courses, 0, hour)?;
    Ok(told)
}

/// Which colours what happens to the channel with this place among the specs, from 0, and its states
/// before the hour leave it at the end of each tenth of the hour. The channel is a detector, a
/// pedestrian detector or a preempt input.
pub fn switched_along(
    alloc: Global,
    channel: Channel,
    before: &Past,
    courses: &Courses,
    spec: u16,
    hour: Hour,
) -> Result<Switched, NoMemory>
    requires spec { spec < length courses.now.specs }
    requires channel { (slice_index_or courses.now.specs spec no_spec).channel ≡ channel }
    requires switch { IsSwitch channel.kind }
    requires colours { length before.now ≡ colours_of channel }
    requires hour { hour < 744 }
    ensures covers { IfOk result (CoversHour hour courses.now.rows courses.now.stretches) }
    ensures colours { IfOk result
        (TellsColours channel before.now hour courses.now.rows courses.now.stretches) }
{
    let machine = machine(channel);
    let first = 36_000 * hour;
    let mut parts = Vec::new(alloc);
    let mut cursor = Cursor {
        at: first,
        mask: of_states(&machine, before),
    };
    for one in courses.moves(spec) {
        let next = after_move(channel, &machine, cursor.mask, *one);
        push_part(&mut parts, cursor.at, next.at, cursor.mask)?;
        cursor = next;
    }
    push_part(&mut parts, cursor.at, first + 36_000, cursor.mask)?;
    Ok(Switched { parts })
}

// The colours from where on after the move. Nothing but the next letter changes those of a gap.
fn after_move(channel: Channel, machine: &AnyMachine, mask: Mask, one: Move) -> Cursor
    requires rules { any_rules machine.now ≡ rules_of (switch_spec channel) }
    requires letter { IsLettered (rules_of (switch_spec channel)).letters one }
    ensures { result ≡ after_move channel mask one }
{
    match one {
        Move::Letter { at, letter, .. } => Cursor {
            at,
            mask: after_letter(channel, machine, mask, letter),
        },
        Move::Gap { from, .. } => Cursor {
            at: from,
            mask: any_colour(channel, machine),
        },
    }
}

// The colours that the letter leads to.
fn after_letter(channel: Channel, machine: &AnyMachine, mask: Mask, letter: u8) -> Mask
    requires rules { any_rules machine.now ≡ rules_of (switch_spec channel) }
    requires letter { letter < (rules_of (switch_spec channel)).letters }
    ensures { result ≡ after_letter channel mask letter }
{
    image(machine, mask, letter)
}

// All colours of the channel.
fn any_colour(channel: Channel, machine: &AnyMachine) -> Mask
    requires rules { any_rules machine.now ≡ rules_of (switch_spec channel) }
    ensures { result ≡ all_colours channel }
{
    all(machine)
}

// Puts the tenths in, where there are some.
fn push_part(parts: &mut Vec<Part>, from: u32, to: u32, mask: Mask) -> Result<(), NoMemory>
    ensures { OnOk result (parts.new.items ≡ parts.old.items ++ part from to mask) }
{
    if from < to {
        parts.push(Part { from, to, mask })?;
        return Ok(());
    }
    Ok(())
}
