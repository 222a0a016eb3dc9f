// Files of the file system, which reveals nothing.
ghost use Rattle.std.specs.Prelude.{◌≡◌, None, List, ℕ};
ghost use Rattle.outside.specs.Shelf.{IsFetched, IsRead, no_faults};

use crate::{FetchError, Shelf};
use std::alloc::Global;
use std::fs::File;
use std::io::{ErrorKind, Read};
use std::marker::Model;
use std::rt::Files;

/// The files of the file system, by their paths. It counts its answers, up to the last value of a
/// u64, and reveals nothing of what the files hold.
#[derive(Drop)]
pub struct DiskShelf<'a, R> {
    files: &'a R,
    missing: u64,
    failed: u64,
    long: u64,
}

impl<'a, R> Model for DiskShelf<'a, R> {
    ghost use Rattle.outside.specs.Shelf.{Counts};

    ghost Value = { Counts };

    ghost view = { λ s. record { missing = s.missing; failed = s.failed; long = s.long } };
}

impl<'a, R: Files> DiskShelf<'a, R> {
    /// A shelf of which nothing was fetched yet.
    pub fn new(files: &'a R) -> Self
        ensures { result ≡ no_faults }
    {
        DiskShelf {
            files,
            missing: 0,
            failed: 0,
            long: 0,
        }
    }
}

// Why a file was not read to its end.
enum Stop {
    Failed,
    TooLong,
    Memory,
}

// Appends what a reader has until its end, or until more than so many bytes came.
fn read_on<F: Read>(from: &mut F, limit: u64, into: &mut Vec<u8>) -> Result<(), Stop>
    ensures { IsRead limit into.old.items into.new.items result }
{
    let start = into.len();
    let mut buffer = [0u8; 16_384];
    loop {
        if (into.len() - start) as u64 > limit {
            return Err(Stop::TooLong);
        }
        match from.read(&mut buffer) {
            Ok(0) => return Ok(()),
            Ok(n) => {
                if into.extend_from_slice(&buffer[..n]).is_err() {
                    return Err(Stop::Memory);
                }
            }
            Err(_) => return Err(Stop::Failed),
        }
    }
}

// Appends all that a reader has, of at most so many bytes, or nothing.
fn read_all<F: Read>(from: &mut F, limit: u64, into: &mut Vec<u8>) -> Result<(), Stop>
    ensures { IsFetched limit into.old.items into.new.items result }
{
    let start = into.len();
    match read_on(from, limit, into) {
        Ok(()) => Ok(()),
        Err(stop) => {
            into.truncate(start);
            Err(stop)
        }
    }
}

impl<R: Files> Shelf for DiskShelf<'_, R> {
    ghost files = { λ s. None };

    ghost counts = { λ s. s };

    fn fetch(
        &mut self,
        _alloc: Global,
        name: &str,
        limit: u64,
        into: &mut Vec<u8>,
    ) -> Result<(), FetchError> {
        let mut file = match File::open(self.files, name) {
            Ok(file) => file,
            Err(error) => {
                if error.kind() == ErrorKind::NotFound {
                    self.missing = self.missing.saturating_add(1);
                    return Err(FetchError::Missing);
                }
                self.failed = self.failed.saturating_add(1);
                return Err(FetchError::Failed);
            }
        };
        match read_all(&mut file, limit, into) {
            Ok(()) => Ok(()),
            Err(Stop::Memory) => Err(FetchError::Memory),
            Err(Stop::TooLong) => {
                self.long = self.long.saturating_add(1);
                Err(FetchError::TooLong)
            }
            Err(Stop::Failed) => {
                self.failed = self.failed.saturating_add(1);
                Err(FetchError::Failed)
            }
        }
    }
}
