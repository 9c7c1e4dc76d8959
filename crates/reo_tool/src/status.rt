//! How the program ends.
ghost use Rattle.std.specs.Prelude.{◌≡◌, ◌<◌, MatchResult};
ghost use Rattle.reo_tool.specs.Status.{code_of, status_of};

use reo_base::WriteFault;
use reo_trace::Ending;

/// What became of a call of the program.
#[derive(Clone, Copy, Debug, PartialEq, Eq)]
pub enum Status {
    /// The run answered every operation.
    Done,
    /// The run ended with operations left and nothing enabled.
    Stuck,
    /// The run ended with operations left at the limit of its steps.
    Limit,
    /// The document was refused.
    Refused,
    /// The words were not understood.
    Usage,
    /// The input could not be read, or was too long.
    ReadFault,
    /// A stream could not be written.
    WriteFault,
    /// There was not enough memory.
    Memory,
}

impl Status {
    /// The exit status of the process.
    pub fn code(self) -> u8
        ensures code { result ≡ code_of self }
        ensures small { result < 8 }
    {
        self as u8
    }

    /// How a run's end is told.
    pub fn of_ending(ending: Ending) -> Status
        ensures { result ≡ status_of ending }
    {
        match ending {
            Ending::Done => Status::Done,
            Ending::Stuck => Status::Stuck,
            Ending::Limit => Status::Limit,
        }
    }
}

/// The status, where a write succeeded.
pub fn unless_fault(written: Result<(), WriteFault>, status: Status) -> Status
    ensures { MatchResult written (λ _. result ≡ status) (λ _. result ≡ Status.WriteFault) }
{
    match written {
        Ok(()) => status,
        Err(_) => Status::WriteFault,
    }
}
