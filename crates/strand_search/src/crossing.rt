// Over the hour of the place.
ghost use Rattle.std.specs.Prelude.{◌≡◌, ◌∷◌, [], ◌+◌, ◌/◌, MatchOption, IfOk};
ghost use Rattle.channel_tables.specs.Spec.{rules_of};
ghost use Rattle.board.specs.Channels.{AreSpecs};
ghost use Rattle.channel_ways.specs.Moves.{IsPassing, NonePasses};
ghost use Rattle.signal_log.specs.Points.{AreAheadsAt, ArePastsAt};
ghost use Rattle.strand_search.specs.Crossings.{FitsCut, IsCrossed, IsCrossing};
ghost use Rattle.sig_base.specs.Reads.{Grow};
ghost use Rattle.strand_search.specs.Parts.{moves_over};
ghost use Rattle.strand_search.specs.Points.{log_alone};
ghost use Rattle.strand_search.specs.Runs.{IsAsked, NoneComes, test_of};

use crate::cut::{Cut, cut_at};
use crate::over::{back_over, on_over};
use crate::part::{course_of, hour_part};
use crate::search::Asked;
use crate::ways::state_between;
use board::{Aheads, Pasts};
use channel_tables::Spec;
use channel_ways::{Passage, Passing};
use gap_ways::Entered;
use hour_store::HourStore;
use reach::{Ahead, Past, Test};
use sig_base::{NoMemory, Reads, Row};
use std::alloc::Global;

/// A way over the hour of the place: the state before it, its rows up to the place, last first,
/// those from there on, and the state after it.
#[derive(Drop)]
pub(crate) struct Crossing {
    pub(crate) before: Entered,
    pub(crate) earlier: Vec<Row>,
    pub(crate) later: Vec<Row>,
    pub(crate) after: Passing,
}

fn test_of(asked: &Asked) -> Test
    ensures { result ≡ test_of asked.now }
{
    Test {
        colours: asked.colours,
        bound: asked.bound,
        at: i64::from(asked.at),
    }
}

// A state at the place that answers.
fn state_at(
    alloc: Global,
    spec: &Spec,
    asked: &Asked,
    before: &Past,
    cut: &Cut<'_>,
    after: &Ahead,
) -> Result<Option<Passing>, NoMemory>
    requires spec { AreSpecs (spec.now ∷ []) }
    requires fits { FitsCut spec.now asked.now before.now cut.now after.now }
    ensures { IfOk result (λ r. IsPassing (rules_of spec.now) before.now after.now
        (moves_over spec.now cut.now.left) (moves_over spec.now cut.now.right) asked.now.met
        (test_of asked.now) r) }
{
    let left = course_of(alloc, spec, &cut.left)?;
    let right = course_of(alloc, spec, &cut.right)?;
    let passage = Passage {
        before,
        left: left.moves(),
        right: right.moves(),
        after,
    };
    state_between(alloc, spec, &passage, &test_of(asked), asked.met)
}

// A way over the hour that is cut at the place. None where no state there answers.
fn cross_cut(
    alloc: Global,
    spec: &Spec,
    asked: &Asked,
    before: &Past,
    cut: &Cut<'_>,
    after: &Ahead,
) -> Result<Option<Crossing>, NoMemory>
    requires spec { AreSpecs (spec.now ∷ []) }
    requires fits { FitsCut spec.now asked.now before.now cut.now after.now }
    ensures { IfOk result (λ r. MatchOption r
        (NonePasses (rules_of spec.now) before.now after.now (moves_over spec.now cut.now.left)
        (moves_over spec.now cut.now.right) asked.now.met (test_of asked.now))
        (IsCrossing spec.now asked.now before.now cut.now after.now)) }
{
    let found = state_at(alloc, spec, asked, before, cut, after)?;
    let Some(here) = found else {
        return Ok(None);
    };
    let mut earlier = Vec::new(alloc);
    let mut later = Vec::new(alloc);
    let source = back_over(alloc, spec, &cut.left, before, here.state, &mut earlier)?;
    let end = on_over(alloc, spec, &cut.right, &here, after, &mut later)?;
    Ok(Some(Crossing {
        before: source,
        earlier,
        later,
        after: end,
    }))
}

/// A way over the hour of the place, which is opened, between states at the point before it and
/// those at the point after it that can be completed. None where no history comes at the place to a
/// state that answers.
#[tactic(auto, using(crate::proofs::Growing::grow_on, crate::proofs::Growing::grow_same))]
pub(crate) fn cross<L>(
    alloc: Global,
    store: &HourStore<L>,
    spec: &Spec,
    asked: &Asked,
    before: &Pasts,
    after: &Aheads,
    reads: &mut Reads<L>,
) -> Result<Option<Crossing>, NoMemory>
    requires spec { AreSpecs (spec.now ∷ []) }
    requires asked { IsAsked store.now asked.now }
    requires before { ArePastsAt (log_alone spec.now store.now) (asked.now.at / 36000) before.now }
    requires after { AreAheadsAt (log_alone spec.now store.now) (asked.now.at / 36000 + 1)
        after.now }
    ensures way { IfOk result (λ r. MatchOption r (NoneComes spec.now store.now asked.now)
        (IsCrossed spec.now store.now asked.now before.now)) }
    ensures grow { Grow reads.old reads.new }
{
    let hour = asked.at / 36_000;
    let part = hour_part(alloc, store, hour, reads)?;
    let cut = cut_at(alloc, &part, asked.at, asked.before)?;
    cross_cut(alloc, spec, asked, before.at(0), &cut, after.at(0))
}
