// What is kept of a service at a detector.
use detector_state::OnTenths;
use service_cut::Service;

/// A whole service of a phase, with the tenths at which a detector was on in its two windows: in its green,
/// from the begin up to the end of green, and in the 50 tenths from the end of yellow on.
#[derive(Clone, Copy, Debug, PartialEq, Eq)]
pub struct Windows {
    pub service: Service,
    pub green: OnTenths,
    /// Of the whole red window; where it isn't over at a point, of its tenths before the point.
    pub red: OnTenths,
}

/// The green of a service that isn't over at a point.
#[derive(Clone, Copy, Debug, PartialEq, Eq)]
pub struct OpenGreen {
    /// The begin of green, in tenths since the window's start.
    pub b: u32,
    /// The end of green, or the point where it hasn't come.
    pub to: u32,
    /// Of the tenths from `b` up to `to`.
    pub tenths: OnTenths,
}
