ghost use Rattle.std.specs.Prelude.{◌≡◌, ◌<◌, IfOk};
ghost use Rattle.std.specs.Io.{ReadsAtMost, WritesAtMost};
ghost use Rattle.std.specs.Io.KnownBytes.{ReadConsumes, WriteAppends};

use ak_io::TRIES;
use std::io::{self, Error, ErrorKind, Read, Write};
use std::net::OpenListener;

/// A read, made again if a signal interrupted it.
pub fn read_retrying<S: Read>(stream: &mut S, into: &mut [u8]) -> io::Result<usize>
    ensures bound { ReadsAtMost result into.new }
    ensures bytes { ReadConsumes (S.remaining stream.old) (S.remaining stream.new) result into.new }
{
    for _ in 0..TRIES {
        match stream.read(into) {
            Ok(count) => return Ok(count),
            Err(error) => {
                if error.kind() != ErrorKind::Interrupted {
                    return Err(error);
                }
            }
        }
    }
    Err(too_many_tries())
}

/// A write of at least one byte, made again if a signal interrupted it.
pub fn write_retrying<S: Write>(stream: &mut S, from: &[u8]) -> io::Result<usize>
    ensures bound { WritesAtMost result from.now }
    ensures bytes { IfOk result (λ _. WriteAppends (S.contents stream.old) (S.contents stream.new) result from.now) }
    ensures some { IfOk result (λ count. 0 < count) }
{
    for _ in 0..TRIES {
        match stream.write(from) {
            Ok(0) => return Err(Error::from(ErrorKind::WriteZero)),
            Ok(count) => return Ok(count),
            Err(error) => {
                if error.kind() != ErrorKind::Interrupted {
                    return Err(error);
                }
            }
        }
    }
    Err(too_many_tries())
}

/// The next connection. One that its peer or the network gave up before it was taken is passed over.
pub fn accept_retrying<L: OpenListener>(listener: &L) -> io::Result<L::Stream> {
    for _ in 0..TRIES {
        match listener.accept() {
            Ok((stream, _)) => return Ok(stream),
            Err(error) => {
                if !passes(error.kind()) {
                    return Err(error);
                }
            }
        }
    }
    Err(too_many_tries())
}

/// Whether an accept that failed so says nothing of the next.
fn passes(kind: ErrorKind) -> bool {
    matches!(
        kind,
        ErrorKind::Interrupted
            | ErrorKind::ConnectionAborted
            | ErrorKind::ConnectionReset
            | ErrorKind::HostUnreachable
            | ErrorKind::NetworkUnreachable
            | ErrorKind::NetworkDown
            | ErrorKind::TimedOut
    )
}

fn too_many_tries() -> Error {
    Error::from(ErrorKind::Interrupted)
}
