// Preempts, row by row.
ghost use Rattle.std.specs.Prelude.{◌≡◌};
ghost use Rattle.other_measures.specs.Passing.{is_preempt_code, other_preempts_pass};
ghost use Rattle.other_measures.specs.Preempts.{delay_of, is_dwell, is_entry, is_exit, is_input};
ghost use Rattle.other_measures.specs.Steps.{call_after, event_by, preempt_after, preempt_cleared};

use crate::last_rows::{Lapse, LastRow, lapse_of, last_row_after};
use hour_sweep::Track;
use sig_base::Row;

/// What is under way of one preempt: its last row of the call input or of an entry, where that is
/// one of the input; and its last entry or exit, with the first begin of dwell since.
#[derive(Clone, Copy)]
pub(crate) struct PreemptPart {
    pub(crate) number: u8,
    pub(crate) call: Option<Row>,
    pub(crate) service: Option<LastRow>,
}

/// What a row of a preempt ends.
#[derive(Clone, Copy)]
pub(crate) enum Event {
    /// An entry, with the tenths since the call where they are known.
    Entry(Option<u32>),
    /// An exit, with the dwell.
    Exit(Lapse),
}

/// An entry or an exit of a preempt.
#[derive(Clone, Copy)]
pub(crate) struct PreemptEvent {
    pub(crate) preempt: u8,
    pub(crate) event: Event,
}

#[tactic(auto, unfolding(crate::specs::Preempts::is_input))]
fn is_input(preempt: u8, row: &Row) -> bool
    ensures { result ≡ is_input preempt row.now }
{
    row.param == u16::from(preempt) && row.code == 102
}

#[tactic(auto, unfolding(crate::specs::Preempts::is_entry))]
fn is_entry(preempt: u8, row: &Row) -> bool
    ensures { result ≡ is_entry preempt row.now }
{
    row.param == u16::from(preempt) && row.code == 105
}

#[tactic(auto, unfolding(crate::specs::Preempts::is_dwell))]
fn is_dwell(preempt: u8, row: &Row) -> bool
    ensures { result ≡ is_dwell preempt row.now }
{
    row.param == u16::from(preempt) && row.code == 107
}

#[tactic(auto, unfolding(crate::specs::Preempts::is_exit))]
fn is_exit(preempt: u8, row: &Row) -> bool
    ensures { result ≡ is_exit preempt row.now }
{
    row.param == u16::from(preempt) && row.code == 111
}

fn call_after(is_input: bool, is_entry: bool, row: Row, call: Option<Row>) -> Option<Row>
    ensures { result ≡ call_after is_input is_entry row call }
{
    if is_input {
        return Some(row);
    }
    if is_entry {
        return None;
    }
    call
}

fn delay_of(at: u32, call: Option<Row>) -> Option<u32>
    ensures { result ≡ delay_of at call }
{
    match call {
        Some(call) => Some(at.saturating_sub(call.at)),
        None => None,
    }
}

impl Track for PreemptPart {
    type Out = PreemptEvent;

    ghost step = { preempt_after };

    ghost clear = { preempt_cleared };

    ghost out_by = { event_by };

    ghost wants = { is_preempt_code };

    ghost passes = { other_preempts_pass };

    fn wants(code: u8) -> bool {
        code == 102 || code == 105 || code == 107 || code == 111
    }

    fn after(self, row: &Row) -> Self {
        let entry = is_entry(self.number, row);
        let exit = is_exit(self.number, row);
        PreemptPart {
            number: self.number,
            call: call_after(is_input(self.number, row), entry, *row, self.call),
            service: last_row_after(
                entry || exit,
                is_dwell(self.number, row),
                *row,
                self.service,
            ),
        }
    }

    fn cleared(self) -> Self {
        PreemptPart {
            number: self.number,
            call: None,
            service: None,
        }
    }

    fn out(self, row: &Row) -> Option<PreemptEvent> {
        if is_entry(self.number, row) {
            return Some(PreemptEvent {
                preempt: self.number,
                event: Event::Entry(delay_of(row.at, self.call)),
            });
        }
        if is_exit(self.number, row) {
            return Some(PreemptEvent {
                preempt: self.number,
                event: Event::Exit(lapse_of(row.at, self.service)),
            });
        }
        None
    }
}
