// How a run ends.
ghost use Rattle.std.specs.Prelude.{◌≡◌};
ghost use Rattle.sigaudit.specs.Status.{exit_status, status_of_ended, status_of_run};
ghost use Rattle.sigaudit.specs.declared.status.Stopped.TheVariants.{Fault, Memory};

use outside::PutFailed;
use sig_base::NoMemory;

/// The answer of a run.
#[derive(Clone, Copy, Debug, PartialEq, Eq)]
pub enum Status {
    /// All was done.
    Done,
    /// All was done, but something was refused and named.
    SomeRefused,
    /// The words aren't ones that the program has.
    Usage,
    /// The configuration is refused.
    BadConfig,
    /// A fetch failed or the output took no more bytes.
    Fault,
    /// Memory ran out.
    Memory,
    /// A file that the words name isn't there, or is too long.
    NoFile,
}

/// How a run ends that nothing from outside cuts off.
#[derive(Clone, Copy, Debug, PartialEq, Eq)]
pub enum Ended {
    Done,
    SomeRefused,
    Usage,
    BadConfig,
    NoFile,
}

/// What cuts a run off.
#[derive(Clone, Copy, Debug, PartialEq, Eq)]
pub enum Stopped {
    Fault,
    Memory,
}

impl From<PutFailed> for Stopped {
    ghost from_gives = { λ _ e. e ≡ Fault };

    fn from(_: PutFailed) -> Self {
        Stopped::Fault
    }
}

impl From<NoMemory> for Stopped {
    ghost from_gives = { λ _ e. e ≡ Memory };

    fn from(_: NoMemory) -> Self {
        Stopped::Memory
    }
}

/// The answer of a run that ended or was cut off.
pub fn status_of(ended: Result<Ended, Stopped>) -> Status
    ensures { result ≡ status_of_run ended }
{
    match ended {
        Ok(Ended::Done) => Status::Done,
        Ok(Ended::SomeRefused) => Status::SomeRefused,
        Ok(Ended::Usage) => Status::Usage,
        Ok(Ended::BadConfig) => Status::BadConfig,
        Ok(Ended::NoFile) => Status::NoFile,
        Err(Stopped::Fault) => Status::Fault,
        Err(Stopped::Memory) => Status::Memory,
    }
}

/// The exit status of the program.
pub fn exit_code(status: Status) -> u8
    ensures { result ≡ exit_status status }
{
    match status {
        Status::Done => 0,
        Status::SomeRefused => 1,
        Status::Usage => 2,
        Status::BadConfig => 3,
        Status::Fault => 4,
        Status::Memory => 5,
        Status::NoFile => 6,
    }
}
