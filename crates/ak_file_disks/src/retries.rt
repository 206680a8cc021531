ghost use Rattle.std.specs.Io.{ReadsAtMost};

use ak_io::TRIES;
use std::fs::File;
use std::io::{self, Error, ErrorKind};
use std::os::unix::fs::FileExt;

/// A read at this place, made again if a signal interrupted it.
pub fn read_retrying(file: &File, place: u64, into: &mut [u8]) -> io::Result<usize>
    ensures bound { ReadsAtMost result into.new }
{
    for _ in 0..TRIES {
        match file.read_at(into, place) {
            Ok(count) => return Ok(count),
            Err(error) => {
                if error.kind() != ErrorKind::Interrupted {
                    return Err(error);
                }
            }
        }
    }
    Err(Error::from(ErrorKind::Interrupted))
}
