// Clauses over several channels, and what holds of them in all histories.
ghost use Rattle.std.specs.Prelude.{◌≡◌, ◌↔◌, ◌⊎◌, ℕ, ℤ, pos, ◌+◌, ◌<◌, ◌≤◌, true, IsTrue, IsSome, IfSome, List, [], length};
ghost use Rattle.reach.specs.Runs.{State};
ghost use Rattle.gap_map.specs.Stretches.{known_at};
ghost use Rattle.board.specs.declared.clause.Term.{Term};
ghost use Rattle.board.specs.Verdicts.{AreApart, AreClause, AreWithin, HasSpec, IsVerdict, Keeps, PassStates, MayPass, SeesTerm};

use crate::view::HourView;
use colour_machine::Mask;
use reach::{AgeBound, Seen, Test};
use sig_base::Verdict;
use std::marker::Model;

/// A term of a clause: the place of a channel among the specs, from 0, and the colours in which the
/// term holds.
#[derive(Clone, Copy, Debug, PartialEq, Eq)]
pub struct Term {
    pub spec: u16,
    pub colours: Mask,
}

/// A clause: it is kept where one of its terms holds. It has 1 to 9 terms, no two of one channel.
#[derive(Drop)]
pub struct Clause {
    terms: Vec<Term>,
}

impl Model for Clause {
    ghost use Rattle.std.specs.Prelude.{List};
    ghost use Rattle.board.specs.declared.clause.Term.{Term};
    ghost use Rattle.board.specs.Verdicts.{AreClause};

    ghost Value = { List Term };

    ghost view = { λ c. c.terms.items };

    ghost invariant = { λ c. AreClause c.terms.items };
}

impl Clause {
    /// `None` exactly where there are no terms, more than 9, or two of one spec.
    pub fn new(terms: Vec<Term>) -> Option<Clause>
        ensures some { IsSome result ↔ AreClause terms.items }
        ensures terms { IfSome result (λ c. c ≡ terms.items) }
    {
        if terms.is_empty() || terms.len() > 9 || !are_apart(&terms) {
            return None;
        }
        Some(Clause { terms })
    }

    /// The terms, in the order in which they were given.
    pub fn terms(&self) -> &[Term]
        ensures terms { result.now ≡ self.now }
        ensures fit { AreClause self.now }
    {
        self.terms.as_slice()
    }
}

// Whether no two of the terms are of one spec.
fn are_apart(terms: &[Term]) -> bool
    ensures { IsTrue result ↔ AreApart terms.now }
{
    for i in 0..terms.len() {
        if has_spec(&terms[i + 1..], terms[i].spec) {
            return false;
        }
    }
    true
}

/// Whether one of the terms is of the spec.
pub fn has_spec(terms: &[Term], spec: u16) -> bool
    ensures { IsTrue result ↔ HasSpec spec terms.now }
{
    for term in terms {
        if term.spec == spec {
            return true;
        }
    }
    false
}

/// Whether all, none or some of the histories of the hour that agree with its known rows keep the
/// clause at the end of the known tenth; never `Idle`.
pub fn clause_verdict(view: &HourView, at: u32, clause: &Clause) -> Verdict
    requires { AreWithin (length view.now.specs) clause.now }
    ensures { known_at view.now.stretches at ≡ true → ((w : ℕ → State) × PassStates view.now at w)
        → IsVerdict result (PassStates view.now at) (Keeps clause.now) }
{
    clause_verdict_from(view, at, clause, &mut [])
}

/// The same, where the search among each channel's moves begins from its cursor, which is left at
/// what was found: quick where the tenths rise from call to call. There is a cursor a channel, by
/// its place among the specs, at first 0. Where a channel has none the search begins from nothing.
pub fn clause_verdict_from(
    view: &HourView,
    at: u32,
    clause: &Clause,
    cursors: &mut [usize],
) -> Verdict
    requires { AreWithin (length view.now.specs) clause.now }
    ensures verdict { known_at view.now.stretches at ≡ true
        → ((w : ℕ → State) × PassStates view.now at w)
        → IsVerdict result (PassStates view.now at) (Keeps clause.now) }
    ensures count { length cursors.new ≡ length cursors.old }
{
    let _channels = view.channels();
    let terms = clause.terms();
    let mut some = false;
    for i in 0..terms.len() {
        let seen = term_seen(view, at, terms[i], cursors);
        if !seen.some_false {
            return Verdict::Kept;
        }
        some |= seen.some_true;
    }
    if some {
        return Verdict::Undecided;
    }
    Verdict::Broken
}

// What the runs of the term's channel say of it at the end of the tenth, looked for from the
// channel's cursor.
fn term_seen(view: &HourView, at: u32, term: Term, cursors: &mut [usize]) -> Seen
    requires spec { term.spec < length view.now.specs }
    ensures sees { known_at view.now.stretches at ≡ true
        → SeesTerm (MayPass view.now at) term result }
    ensures count { length cursors.new ≡ length cursors.old }
{
    let test = Test {
        colours: term.colours,
        bound: AgeBound::Any,
        at: i64::from(at),
    };
    let channel = term.spec as usize;
    if channel >= cursors.len() {
        return view.seen_at_end(term.spec, at, &test);
    }
    let (seen, place) = view.seen_from(term.spec, at, &test, cursors[channel]);
    cursors[channel] = place;
    seen
}
