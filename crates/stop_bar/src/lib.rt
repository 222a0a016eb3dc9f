//! One stop bar over one hour: how often its detector was on in the two windows by which a service of
//! its phase is a split failure, in the green, and in the 50 tenths from the end of its yellow on.
//!
//! Both may cross the points between hours. So an hour takes two things over from the one before: the
//! green of the service that was open at the point, and the services whose red window wasn't over. It
//! gives the windows that end in it, and the two things for the next hour. The numbers are `OnTenths`
//! of `detector_state`, said of the log: they stay true whatever is known of later tenths, and they
//! need no known tenth.
//!
//! `window_hour` counts for services that it is given; in `hour` they are those that `service_cut`
//! lists of the log, so what is said of an hour is said of the log up to it. What crosses a point is
//! one value, whatever is known of later tenths.
#![tactic(auto)]

mod all;
mod at_bar;
mod bars;
mod detectors;
mod hour;
mod laws;
mod same;
mod window_hour;
mod window_laws;
mod windows;

pub use all::{AtBars, Ended, bars_hour};
pub use at_bar::AtBar;
pub use bars::{StopBar, stop_bars};
pub use detectors::detectors_hour;
pub use hour::{OverBar, bar_hour};
pub use laws::{what_crosses_is_one, windows_are_listed_once};
pub use window_hour::{Over, open_after, windows_hour};
pub use window_laws::{
    opens_fit, pending_are_one, services_fit, services_go_on, tenths_are_one, tenths_stay,
};
pub use windows::{OpenGreen, Windows};
