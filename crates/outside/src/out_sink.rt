// A writer as a sink, which reveals nothing.
ghost use Rattle.std.specs.Prelude.{◌≡◌, None};

use crate::{PutFailed, Sink};
use std::io::Write;
use std::marker::Model;

/// Standard output, or another writer. It counts its faults, up to the last value of a u64, and
/// reveals nothing of what arrived.
#[derive(Drop)]
pub struct OutSink<W> {
    to: W,
    faults: u64,
}

impl<W> Model for OutSink<W> {
    ghost use Rattle.std.specs.Prelude.{ℕ};

    ghost Value = { ℕ };

    ghost view = { λ s. s.faults };
}

impl<W: Write> OutSink<W> {
    /// A sink with no fault so far.
    pub fn new(to: W) -> Self
        ensures { result ≡ 0 }
    {
        OutSink { to, faults: 0 }
    }
}

impl<W: Write> Sink for OutSink<W> {
    ghost taken = { λ s. record { written = None; faults = s } };

    fn put(&mut self, bytes: &[u8]) -> Result<(), PutFailed> {
        let mut rest = bytes;
        while !rest.is_empty() {
            match self.to.write(rest) {
                Ok(0) | Err(_) => {
                    self.faults = self.faults.saturating_add(1);
                    return Err(PutFailed);
                }
                Ok(taken) => rest = &rest[taken..],
            }
        }
        Ok(())
    }
}
