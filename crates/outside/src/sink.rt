ghost use Rattle.outside.specs.Sink.{Puts, Taken};

/// A sink failed, and took at most a part of the bytes that it was given.
#[derive(Clone, Copy, Debug, PartialEq, Eq)]
pub struct PutFailed;

/// Takes bytes in order, to the outside.
pub trait Sink {
    /// The bytes that were taken, where they are revealed, and how often it has failed.
    ghost taken: { Self → Taken };

    /// Takes all the bytes, or fails after a prefix of them and raises its count of faults.
    fn put(&mut self, bytes: &[u8]) -> Result<(), PutFailed>
        ensures { Puts (taken self.old) (taken self.new) bytes.now result };
}
