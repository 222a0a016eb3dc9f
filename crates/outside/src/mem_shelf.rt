// A shelf in memory, which reveals all that it holds.
ghost use Rattle.std.specs.Prelude.{◌≡◌, [], ◌∷◌, ◌++◌, List, ℕ, Option, Some, OnOk, OnErr, option_map, IfSome, IsErrOf, Contains, ◌↔◌};
ghost use Rattle.sig_base.specs.Reads.{one_more};
ghost use Rattle.outside.specs.Shelf.{IsFetch, IsCounted, IsFetched, no_faults};
ghost use Rattle.outside.specs.Mem.{named_of, file_at};

use crate::{FetchError, Shelf};
use sig_base::NoMemory;
use std::alloc::Global;
use std::marker::Model;

#[derive(Drop)]
struct MemFile {
    name: String,
    bytes: Vec<u8>,
}

/// Files in memory by name. A fetch fails where its number was given to `fail_call`.
#[derive(Drop)]
pub struct MemShelf {
    alloc: Global,
    files: Vec<MemFile>,
    failing: Vec<u64>,
    calls: u64,
    missing: u64,
    failed: u64,
    long: u64,
}

impl Model for MemShelf {
    ghost use Rattle.outside.specs.Mem.{Held, named_of};

    ghost Value = { Held };

    ghost view = { λ s. record {
      files = named_of s.files.items;
      failing = s.failing.items;
      calls = s.calls;
      counts = record { missing = s.missing; failed = s.failed; long = s.long };
    } };
}

// The bytes of the newest file of this name.
fn find<'a>(files: &'a [MemFile], name: &str) -> Option<&'a [u8]>
    ensures { option_map (λ s. s.now) result ≡ file_at (named_of files.now) name.now }
{
    let mut rest = files;
    while let [first, after @ ..] = rest {
        if first.name.as_str() == name {
            return Some(&first.bytes);
        }
        rest = after;
    }
    None
}

impl MemShelf {
    /// An empty shelf.
    pub fn new(alloc: Global) -> Self
        ensures { result ≡ record { files = []; failing = []; calls = 0; counts = no_faults } }
    {
        MemShelf {
            alloc,
            files: Vec::new(alloc),
            failing: Vec::new(alloc),
            calls: 0,
            missing: 0,
            failed: 0,
            long: 0,
        }
    }

    /// Puts a file on the shelf. It stands in the place of an earlier one with an equal name.
    pub fn add(&mut self, name: &str, bytes: &[u8]) -> Result<(), NoMemory>
        ensures ok { OnOk result (self.new ≡ record self.old {
          files = (name.now, bytes.now)
              ∷ self.old.files;
        }) }
        ensures err { OnErr result (self.new ≡ self.old) }
    {
        let file = MemFile {
            name: String::from_str(self.alloc, name)?,
            bytes: bytes.to_vec(self.alloc)?,
        };
        self.files.insert(0, file)?;
        Ok(())
    }

    /// After it the fetch of this number fails, counted from 1.
    pub fn fail_call(&mut self, number: u64) -> Result<(), NoMemory>
        ensures ok { OnOk result (self.new ≡ record self.old {
          failing = self.old.failing ++ number
              ∷ [];
        }) }
        ensures err { OnErr result (self.new ≡ self.old) }
    {
        self.failing.push(number)?;
        Ok(())
    }
}

impl Shelf for MemShelf {
    ghost files = { λ s. Some (file_at s.files) };

    ghost counts = { λ s. s.counts };

    fn fetch(
        &mut self,
        alloc: Global,
        name: &str,
        limit: u64,
        into: &mut Vec<u8>,
    ) -> Result<(), FetchError>
        ensures stay { self.new.files ≡ self.old.files }
        ensures counted { IsCounted self.old.counts self.new.counts result }
        ensures appended { IsFetched limit into.old.items into.new.items result }
        ensures content { IsFetch (file_at self.old.files name.now) limit into.old.items
            into.new.items result }

        // The fetches that were told to fail are those that do.
        ensures calls { self.new.calls ≡ one_more self.old.calls }
        ensures failing { IsErrOf result FetchError.Failed
            ↔ Contains self.old.failing (one_more self.old.calls) }
        ensures told { self.new.failing ≡ self.old.failing }
    {
        self.calls = self.calls.saturating_add(1);
        if self.failing.contains(&self.calls) {
            self.failed = self.failed.saturating_add(1);
            return Err(FetchError::Failed);
        }
        let Some(bytes) = find(&self.files, name) else {
            self.missing = self.missing.saturating_add(1);
            return Err(FetchError::Missing);
        };
        if bytes.len() as u64 > limit {
            self.long = self.long.saturating_add(1);
            return Err(FetchError::TooLong);
        }
        if into.extend_from_slice(bytes).is_err() {
            return Err(FetchError::Memory);
        }
        Ok(())
    }
}
