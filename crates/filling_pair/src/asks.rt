// What is asked of the channels of a rule at the place of a line, and the strands that answer.
ghost use Rattle.std.specs.Prelude.{◌≡◌, ◌≤◌, length, IfOk, MatchOption};
ghost use Rattle.board.specs.Channels.{AreSpecs};
ghost use Rattle.filling_pair.specs.Asks.{FitAsks, FitsAsk, HasAsk, IsAmong, LacksReply, NoneStands, Replies, ReplyAll, row_of_place};
ghost use Rattle.filling_pair.specs.Kept.{IsPlaced};
ghost use Rattle.sig_base.specs.Reads.{Grow};
ghost use Rattle.filling_pair.specs.Strands.{rows_of};

use crate::strands::{Fill, Fills, Strand, Strands};
use channel_tables::Spec;
use colour_machine::Mask;
use hour_store::HourStore;
use reach::AgeBound;
use rule_audit::{AuditLine, Place};
use sig_base::{NoMemory, Reads, Row};
use std::alloc::Global;
use strand_search::{Asked, Found, find_run};

/// Whether the channel with this place among the specs is to have one of the colours with such an
/// age, or not.
#[derive(Clone, Copy)]
pub(crate) struct Ask {
    pub(crate) spec: u16,
    pub(crate) colours: Mask,
    pub(crate) bound: AgeBound,
    pub(crate) met: bool,
}

// The rows as fills.
fn fills_of(alloc: Global, rows: &[Row]) -> Result<Fills, NoMemory>
    ensures { IfOk result (λ f. rows_of f ≡ rows.now) }
{
    let mut fills = Fills::new(alloc);
    for row in rows {
        fills.push(Fill {
            at: row.at,
            code: row.code,
            param: row.param,
        })?;
    }
    Ok(fills)
}

// The run as a strand.
fn strand_of(alloc: Global, spec: u16, found: &Found) -> Result<Strand, NoMemory>
    ensures spec { IfOk result (λ z. z.spec ≡ spec) }
    ensures colour { IfOk result (λ z. z.colour ≡ found.now.colour) }
    ensures entry { IfOk result (λ z. z.entry ≡ found.now.entry) }
    ensures fills { IfOk result (λ z. rows_of z.fills ≡ found.now.fills.items) }
{
    let fills = fills_of(alloc, &found.fills)?;
    Ok(Strand {
        spec,
        colour: found.colour,
        entry: found.entry,
        fills,
    })
}

// The number of the row before which the place is, if it is before one.
fn row_of(place: Place) -> Option<u32>
    ensures { result ≡ row_of_place place }
{
    match place {
        Place::BeforeRow(row) => Some(row),
        Place::EndOfTenth => None,
    }
}

// A strand that answers.
fn reply<L>(
    alloc: Global,
    specs: &[Spec],
    store: &HourStore<L>,
    line: &AuditLine,
    ask: Ask,
    reads: &mut Reads<L>,
) -> Result<Option<Strand>, NoMemory>
    requires specs { AreSpecs specs.now }
    requires line { IsPlaced store.now line.now }
    requires ask { FitsAsk specs.now ask }
    ensures strand { IfOk result (λ r. MatchOption r (NoneStands specs.now store.now line.now ask)
        (Replies specs.now store.now line.now ask)) }
    ensures grow { Grow reads.old reads.new }
{
    let asked = Asked {
        at: line.at,
        before: row_of(line.place),
        colours: ask.colours,
        bound: ask.bound,
        met: ask.met,
    };
    let run = find_run(alloc, store, &specs[ask.spec as usize], &asked, reads)?;
    let Some(found) = run else {
        return Ok(None);
    };
    let strand = strand_of(alloc, ask.spec, &found)?;
    Ok(Some(strand))
}

// What is asked of the channel, if anything is.
fn ask_of(asks: &[Ask], spec: u16) -> Option<Ask>
    ensures { MatchOption result (HasAsk spec asks.now → ⊥)
        (λ a. (a.spec ≡ spec) × IsAmong a asks.now) }
{
    for ask in asks {
        if ask.spec == spec {
            return Some(*ask);
        }
    }
    None
}

/// A strand for each of the asks, by ascending channel. None where one of them has no answer.
#[tactic(auto, using(crate::proofs::Growing::grow_on, crate::proofs::Growing::grow_same))]
pub(crate) fn replies<L>(
    alloc: Global,
    specs: &[Spec],
    store: &HourStore<L>,
    line: &AuditLine,
    asks: &[Ask],
    reads: &mut Reads<L>,
) -> Result<Option<Strands>, NoMemory>
    requires specs { AreSpecs specs.now }
    requires few { length specs.now ≤ 225 }
    requires line { IsPlaced store.now line.now }
    requires asks { FitAsks specs.now asks.now }
    ensures strands { IfOk result (λ r. MatchOption r
        (LacksReply specs.now store.now line.now asks.now)
        (ReplyAll specs.now store.now line.now asks.now)) }
    ensures grow { Grow reads.old reads.new }
{
    let mut strands = Strands::new(alloc);
    for spec in 0..specs.len() as u16 {
        if let Some(ask) = ask_of(asks, spec) {
            match reply(alloc, specs, store, line, ask, reads)? {
                Some(strand) => strands.push(strand)?,
                None => return Ok(None),
            }
        }
    }
    Ok(Some(strands))
}
