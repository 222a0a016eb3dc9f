// Refused lines of a script.
ghost use Rattle.hour_store.specs.Store.{Store};
ghost use Rattle.report_text.specs.Refusals.{IsOfWindow};
ghost use Rattle.sigaudit.specs.declared.hour_file.Unread.TheVariants.{Packed};
ghost use Rattle.sigaudit.specs.Turns.{refuses, refuses_file};
ghost use Rattle.sigaudit.specs.Run.{TakesPut};

use crate::status::Stopped;
use hour_pack::PackError;
use outside::Sink;
use report_text::{Refusal, put_packed_refusal, put_refusal};
use ring_config::Config;

/// Refuses a line: it is named and changes nothing.
pub fn refuse<K: Sink>(
    config: &Config,
    number: u32,
    refusal: Refusal,
    sink: &mut K,
) -> Result<bool, Stopped>
    requires { IsOfWindow config.now.window refusal }
    ensures { (s : Store) → TakesPut (refuses config.now number refusal s) (K.taken sink.old)
        (K.taken sink.new) s result }
{
    put_refusal(config.window(), Some(number), &refusal, sink)?;
    Ok(true)
}

/// Refuses a line whose packed hour has this fault.
pub fn refuse_packed<K: Sink>(
    config: &Config,
    number: u32,
    error: PackError,
    sink: &mut K,
) -> Result<bool, Stopped>
    ensures { (s : Store) → TakesPut (refuses_file config.now number (Packed error) s)
        (K.taken sink.old) (K.taken sink.new) s result }
{
    put_packed_refusal(Some(number), error, sink)?;
    Ok(true)
}
