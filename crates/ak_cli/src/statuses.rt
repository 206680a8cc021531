ghost use Rattle.std.specs.Prelude.{◌≡◌};
ghost use Rattle.ak_cli.specs.Programs.{command_status};

use ak_line_runs::CommandEnd;
use ak_outcomes::{KEEPER_FAILED, NO_MEMORY};

/// The work is done; with `lab`, `desk` and `import` the input was read to its end.
pub const DONE: u8 = 0;

/// The words name no command.
pub const USAGE: u8 = 2;

/// A line or a record of the input breaks a named rule, or `init` found a collection, or a command that works on one found none; the
/// last line that was printed tells which.
pub const COMMAND_REFUSED: u8 = 3;

/// The input failed.
pub const READ_FAILED: u8 = 4;

/// The output failed.
pub const WRITE_FAILED: u8 = 5;

pub(crate) fn command_status(end: CommandEnd) -> u8
    ensures { result ≡ command_status end }
{
    match end {
        CommandEnd::Done => DONE,
        CommandEnd::Refused => COMMAND_REFUSED,
        CommandEnd::ReadFailed => READ_FAILED,
        CommandEnd::WriteFailed => WRITE_FAILED,
        CommandEnd::KeeperFailed => KEEPER_FAILED,
        CommandEnd::Memory => NO_MEMORY,
    }
}
