ghost use Rattle.std.specs.Prelude.{◌≡◌};
ghost use Rattle.ak_server_runs.specs.ServerRuns.{of_opening, status_of};

use ak_account_keepers::OpenFault;

/// How a run of a server ends.
#[derive(Clone, Copy, Debug, PartialEq, Eq)]
pub enum RunEnd {
    /// So many links were served as the words say, or the door has ended.
    Done,
    /// The words are none that the program takes.
    Usage,
    /// The file of accounts is not of its form.
    Refused,
    /// The file of accounts failed.
    FileFailed,
    /// A keeper could not be made, or failed before its account was opened.
    KeeperFailed,
    /// Out of memory, before the first link.
    Memory,
    /// The door failed.
    DoorFailed,
}

impl RunEnd {
    /// The status with which the program ends.
    pub fn status(self) -> u8
        ensures { result ≡ status_of self }
    {
        match self {
            RunEnd::Done => 0,
            RunEnd::Usage => 2,
            RunEnd::Refused => 3,
            RunEnd::FileFailed => 4,
            RunEnd::KeeperFailed => 6,
            RunEnd::Memory => 8,
            RunEnd::DoorFailed => 9,
        }
    }
}

/// How a run ends if not all accounts were opened.
pub(crate) fn of_opening(fault: OpenFault) -> RunEnd
    ensures { result ≡ of_opening fault }
{
    match fault {
        OpenFault::Refused => RunEnd::Refused,
        OpenFault::FileFailed => RunEnd::FileFailed,
        OpenFault::KeeperFailed => RunEnd::KeeperFailed,
        OpenFault::Memory => RunEnd::Memory,
    }
}
