//! How the program ends.
ghost use Rattle.std.specs.Prelude.{◌≡◌};
ghost use Rattle.std.specs.Process.{exit_status};
ghost use Rattle.px_run.specs.Exits.{exit_number};

use px_reader::Refused;
use std::process::ExitCode;

/// How the top call ends.
#[derive(Clone, Copy, Debug, PartialEq, Eq)]
pub enum Status {
    /// Every command was answered, or the certificate was.
    Done,
    /// The words aren't taken.
    Usage,
    /// The bytes are no script, or no certificate.
    Refused(Refused),
    /// A read failed.
    ReadFault,
    /// A write failed.
    WriteFault,
    /// There was no memory for the words, the script, a reply or its text, the demo's script or line, or the certificate or its answer. No
    /// read failed, and no more bytes came than a script or a certificate may have.
    NoMemory,
    /// More bytes came than a script or a certificate may have.
    TooLong,
}

impl Status {
    /// Returns the exit status of the program.
    pub fn exit(self) -> ExitCode
        ensures { exit_status result ≡ exit_number self }
    {
        ExitCode::from(match self {
            Status::Done => 0,
            Status::Usage => 2,
            Status::Refused(_) => 3,
            Status::ReadFault => 4,
            Status::WriteFault => 5,
            Status::NoMemory => 6,
            Status::TooLong => 7,
        })
    }
}
