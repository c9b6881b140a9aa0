//! How the program ends.
use tmf_lines::GiveFault;

/// The program's exit status.
#[derive(Clone, Copy, Debug, PartialEq, Eq)]
pub enum Status {
    /// Every action has printed its lines.
    Done,
    /// The words are not accepted.
    Usage,
    NoMemory,
    SourceFailed,
    SinkFailed,
    /// The text is no script.
    Refused,
}

impl Status {
    ghost use Rattle.std.specs.Prelude.{◌≡◌};
    ghost use Rattle.tmf_cli.specs.Status.{code_of, fault_status};

    /// Its number.
    pub fn code(self) -> u8
        ensures { result ≡ code_of self }
    {
        match self {
            Status::Done => 0,
            Status::Usage => 1,
            Status::NoMemory => 2,
            Status::SourceFailed => 3,
            Status::SinkFailed => 4,
            Status::Refused => 5,
        }
    }

    /// That of lines which were not all given.
    pub fn of_fault(fault: GiveFault) -> Status
        ensures { result ≡ fault_status fault }
    {
        match fault {
            GiveFault::NoMemory => Status::NoMemory,
            GiveFault::SinkFailed => Status::SinkFailed,
        }
    }
}
