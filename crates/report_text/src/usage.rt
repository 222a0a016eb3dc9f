// The line for words that the program hasn't.
ghost use Rattle.outside.specs.Sink.{Puts};
ghost use Rattle.report_text.specs.Usage.{usage_text};

use outside::{PutFailed, Sink};

const USAGE: &[u8] =
    b"usage: sigaudit --config C --script S [--rule K --at T] | --count F --signal ID --hour H | --pack F --signal ID --hour H | --demo N\n";

/// Writes which words the program has.
pub fn put_usage<K: Sink>(sink: &mut K) -> Result<(), PutFailed>
    ensures { Puts (K.taken sink.old) (K.taken sink.new) usage_text result }
{
    sink.put(USAGE)
}
