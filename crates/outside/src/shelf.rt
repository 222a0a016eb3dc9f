ghost use Rattle.std.specs.Prelude.{◌≡◌, List, ℕ, Option, IfSome};
ghost use Rattle.outside.specs.Shelf.{Counts, Files, IsFetch, IsCounted, IsFetched};

use std::alloc::Global;

/// Why a file was not fetched.
#[derive(Clone, Copy, Debug, PartialEq, Eq)]
pub enum FetchError {
    /// Nothing has this name.
    Missing,
    /// It could not be opened or read to its end.
    Failed,
    /// It is longer than the limit.
    TooLong,
    /// Memory ran out.
    Memory,
}

/// Files by name, from outside.
pub trait Shelf {
    /// What is at each name, where it is revealed.
    ghost files: { Self → Option Files };

    /// How often a file was missing, a fetch failed, and a file was too long.
    ghost counts: { Self → Counts };

    /// Appends the bytes of the file of this name, at most `limit` of them. After an error `into` is
    /// as before. Each error but out of memory raises its own count, and no other count moves.
    fn fetch(
        &mut self,
        alloc: Global,
        name: &str,
        limit: u64,
        into: &mut Vec<u8>,
    ) -> Result<(), FetchError>
        ensures stay { files self.new ≡ files self.old }
        ensures counted { IsCounted (counts self.old) (counts self.new) result }
        ensures appended { IsFetched limit into.old.items into.new.items result }
        ensures content { IfSome (files self.old) (λ told. IsFetch (told name.now) limit
            into.old.items into.new.items result) };
}
