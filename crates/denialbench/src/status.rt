//! How a run ends.
ghost use Rattle.std.specs.Prelude.{◌≡◌};
ghost use Rattle.denialbench.specs.Status.{exit_code};

use std::process::ExitCode;

/// How a run ends, and the program's exit status.
#[derive(Clone, Copy, Debug, PartialEq, Eq)]
pub enum Status {
    /// Everything was read and answered: 0.
    Done,
    /// A line cannot be read: 1.
    BadLine,
    /// The reader or the writer failed, or out of memory: 2.
    Fault,
}

impl Status {
    /// The exit status.
    pub fn code(self) -> u8
        ensures { result ≡ exit_code self }
    {
        match self {
            Status::Done => 0,
            Status::BadLine => 1,
            Status::Fault => 2,
        }
    }
}

impl From<Status> for ExitCode {
    ghost use Rattle.std.specs.Prelude.{◌≡◌};
    ghost use Rattle.std.specs.Process.{exit_status};
    ghost use Rattle.denialbench.specs.Status.{exit_code};

    ghost from_gives = { λ status code. exit_status code ≡ exit_code status };

    fn from(status: Status) -> ExitCode {
        ExitCode::from(status.code())
    }
}
