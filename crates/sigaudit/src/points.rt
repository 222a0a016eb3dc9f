// The diagrams of a phase.
ghost use Rattle.std.specs.Prelude.{◌≡◌, true, false};
ghost use Rattle.sig_base.specs.Numbers.{has_phase};
ghost use Rattle.sig_base.specs.Reads.{Grow};
ghost use Rattle.sigaudit.specs.Points.{points_of_phase, points_turn};
ghost use Rattle.sigaudit.specs.Run.{TakesBy};

use crate::refused::refuse;
use crate::status::Stopped;
use outside::Sink;
use report_text::{Refusal, put_diagrams};
use ring_config::Config;
use session::Draft;
use sig_base::{Reads, has_phase};

// Writes the diagrams of a phase of the configuration.
#[tactic(auto, using(crate::proofs::GrowFacts::grow_same))]
fn phase_diagrams<L, K: Sink>(
    number: u32,
    phase: u8,
    session: &Draft<L>,
    sink: &mut K,
    reads: &mut Reads<L>,
) -> Result<bool, Stopped>
    ensures turn { TakesBy (λ t. t ≡ points_turn session.now.config number phase session.now.store
        true) (K.taken sink.old) (K.taken sink.new) session.now.store result }
    ensures grow { Grow reads.old reads.new }
{
    let diagrams = session.points(phase, reads)?;
    put_diagrams(number, phase, session.config(), &diagrams, sink)?;
    Ok(false)
}

/// Writes the whole cycles of a phase with the arrivals in them. A phase that isn't configured makes
/// a bad line, for which no hour is opened.
#[tactic(auto, using(crate::proofs::GrowFacts::grow_same))]
pub fn points_line<L, K: Sink>(
    number: u32,
    phase: u8,
    session: &Draft<L>,
    sink: &mut K,
    reads: &mut Reads<L>,
) -> Result<bool, Stopped>
    ensures turn { TakesBy (λ t. t ≡ points_of_phase session.now.config number phase
        session.now.store) (K.taken sink.old) (K.taken sink.new) session.now.store result }
    ensures still { has_phase session.now.config.phases phase ≡ false → reads.new ≡ reads.old }
    ensures grow { Grow reads.old reads.new }
{
    if !has_phase(session.config().phases(), phase) {
        return refuse(session.config(), number, Refusal::BadLine, sink);
    }
    phase_diagrams(number, phase, session, sink, reads)
}
