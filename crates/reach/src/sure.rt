// One state alone, without sets.
ghost use Rattle.std.specs.Prelude.{◌≡◌, ◌↔◌, ◌≤ℤ◌, List, Option, ℤ, length, IsTrue, IfSome};
ghost use Rattle.reach.specs.Runs.{State};
ghost use Rattle.reach.specs.Past.{Holds};
ghost use Rattle.reach.specs.Ahead.{Admits};
ghost use Rattle.reach.specs.Single.{sets_of, IsSingle};
ghost use Rattle.reach.specs.Tests.{Sees};

use crate::ahead::Ahead;
use crate::past::{Past, Single};
use crate::seen::{Seen, Test, both, first_alone, is_met, sure_single};
use sig_base::Tenth;

impl Past {
    /// The one state that is possible, where it alone is kept.
    pub fn single(&self) -> Option<Single>
        ensures single { IfSome result (λ o. IsSingle o) }
        ensures states { IfSome result (λ o. self.now ≡ sets_of o) }
    {
        self.one
    }
}

impl Ahead {
    /// The state's colour with every entry up to its own.
    pub fn only(one: Single) -> Ahead
        requires { IsSingle one }
        ensures colours { length result ≡ length (sets_of one) }
        ensures states { (s : State) → Admits result s ↔ ((s.colour ≡ one.colour)
            × (s.entry ≤ℤ one.entry)) }
    {
        let mut latest = [None; 16];
        latest[one.colour as usize] = Some(one.entry);
        Ahead {
            latest,
            colours: one.colours,
        }
    }
}

/// Whether the state can still be completed.
pub fn single_goes_on(one: Single, ahead: &Ahead) -> bool
    requires single { IsSingle one }
    requires colours { length (sets_of one) ≡ length ahead.now }
    ensures { IsTrue result → (s : State) → Holds (sets_of one) s → Admits ahead.now s }
{
    sure_single(one, &ahead.latest[..ahead.colours as usize])
}

/// What a test says where this state alone is possible, and it can still be completed.
pub fn seen_alone(one: Single, test: &Test) -> Seen
    requires { IsSingle one }
    ensures { (latest : List (Option ℤ))
        → ((s : State) → Holds (sets_of one) s → Admits latest s)
        → Sees (sets_of one) latest test.now result }
{
    let here = is_begun(one.entry, test.at);
    let meets = is_met(one, test);
    Seen {
        some_true: both(here, meets),
        some_false: first_alone(here, meets),
    }
}

fn is_begun(entry: Tenth, at: Tenth) -> bool
    ensures { IsTrue result ↔ (entry ≤ℤ at) }
{
    entry <= at
}
