ghost use Rattle.ak_http_heads.specs.Reads.{ParsesHead};
ghost use Rattle.ak_http_heads.specs.Routes.{IsRoutes};

use crate::checks::read_fields;
use crate::heads::Head;
use ak_http_texts::Refusal;
use ak_messages::Method;
use httparse::{EMPTY_HEADER, Request, Status};
use matchit::Router;

/// The most fields of a head.
pub const MOST_FIELDS: usize = 64;

/// Reads the head at the front of bytes: None if it may still come to its end, and `Refusal::Head` if these are the
/// first bytes of no head, whatever follows.
pub fn parse(routes: &Router<Method>, bytes: &[u8]) -> Result<Option<Head>, Refusal>
    requires { IsRoutes routes.now }
    ensures { ParsesHead bytes.now result }
{
    let mut fields = [EMPTY_HEADER; MOST_FIELDS];
    let mut request = Request::new(&mut fields);
    match request.parse(bytes) {
        Ok(Status::Complete(_)) => {}
        Ok(Status::Partial) => return Ok(None),
        Err(_) => return Err(Refusal::Head),
    }
    let (Some(method), Some(target)) = (request.method, request.path) else {
        return Err(Refusal::Head);
    };
    // The parser takes no more than there is room for, but does not promise it.
    if request.headers.len() > MOST_FIELDS {
        return Err(Refusal::Head);
    }
    let head = read_fields(routes, method, target, request.headers)?;
    Ok(Some(head))
}
