// A channel with its floors.
ghost use Rattle.std.specs.Prelude.{◌≡◌};

use event_codes::Channel;

/// A channel that is followed, and for each colour of its machine the least age at which the colour
/// may be left: tenths of a second, at most 36,000, and 0 for detectors, pedestrian detectors,
/// preempt inputs and the coordination.
#[derive(Clone, Copy, Debug, PartialEq, Eq)]
pub struct Spec {
    pub channel: Channel,
    pub floors: [u32; 16],
}
