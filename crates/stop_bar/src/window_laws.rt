// What holds of every log.
ghost use Rattle.stop_bar.specs.Going.{OpensFit, ServicesFit, ServicesGoOn};
ghost use Rattle.stop_bar.specs.Staying.{PendingAreOne, TenthsAreOne, TenthsStay};

/// Law: a service that began before a point was open there.
pub fn services_go_on()
    ensures { ServicesGoOn }
{}

/// Law: the services of an hour, as `service_cut` lists them, are such as `windows_hour` asks for,
/// where the green of the service that was open before the hour is at hand.
pub fn services_fit()
    ensures { ServicesFit }
{}

/// Law: the service that is open at an hour's end is such as `open_after` asks for.
pub fn opens_fit()
    ensures { OpensFit }
{}

/// Law: the numbers of a range depend on the tenths up to its end alone.
pub fn tenths_stay()
    ensures { TenthsStay }
{}

/// Law: a range has one of each number.
pub fn tenths_are_one()
    ensures { TenthsAreOne }
{}

/// Law: the services that wait at a tenth have one of each number.
pub fn pending_are_one()
    ensures { PendingAreOne }
{}
