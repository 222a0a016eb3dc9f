// What holds of every log.
ghost use Rattle.stop_bar.specs.Bars.{AreListedOnce, CrossesOnce};

/// Law: what crosses a point is one value.
pub fn what_crosses_is_one()
    ensures { CrossesOnce }
{}

/// Law: the windows that end in an hour are one list.
pub fn windows_are_listed_once()
    ensures { AreListedOnce }
{}
