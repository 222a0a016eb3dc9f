// A sink that keeps nothing.
ghost use Rattle.std.specs.Prelude.{None};

use outside::{PutFailed, Sink};

/// Takes all bytes and keeps none of them.
#[derive(Drop)]
pub struct QuietSink;

impl Sink for QuietSink {
    ghost taken = { λ s. record { written = None; faults = 0 } };

    fn put(&mut self, _bytes: &[u8]) -> Result<(), PutFailed> {
        Ok(())
    }
}
