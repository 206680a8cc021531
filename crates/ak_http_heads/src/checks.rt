ghost use Rattle.std.specs.Prelude.{◌≡◌, map, Some, MatchResult};
ghost use Rattle.httparse.specs.Borrowed.{header_parts};
ghost use Rattle.ak_http_heads.specs.Routes.{IsRoutes};
ghost use Rattle.ak_http_heads.specs.Heads.{lacks_length, is_large, is_over_limit, is_compressed, ReadsEnvelope, fault_of, Asks};

use crate::fields::{
    MOST_BODY_BYTES, base_in, first_value, has_name, host_in, length_in, read_decimal, session_in,
    step_in,
};
use crate::heads::Head;
use crate::routes::route_of;
use ak_base::is_decimal;
use ak_http_texts::Refusal;
use ak_messages::{Envelope, Method};
use http::Method as HttpMethod;
use httparse::Header;
use matchit::Router;

/// What a method, a target and fields ask, or the first test that they fail.
pub fn read_fields(
    routes: &Router<Method>,
    method: &str,
    target: &str,
    fields: &[Header],
) -> Result<Head, Refusal>
    requires { IsRoutes routes.now }
    ensures { MatchResult result
        (λ asked. Asks method.now target.now (map header_parts fields.now) asked)
        (λ why. fault_of method.now target.now (map header_parts fields.now) ≡ Some why) }
{
    let Some(asked) = route_of(routes, target) else {
        return Err(Refusal::Route);
    };
    if method != HttpMethod::POST.as_str() {
        return Err(Refusal::Method);
    }
    if lacks_length(fields) {
        return Err(Refusal::Length);
    }
    if is_large(fields) {
        return Err(Refusal::Large);
    }
    if is_compressed(fields) {
        return Err(Refusal::Compressed);
    }
    let Some(envelope) = read_envelope(fields) else {
        return Err(Refusal::Headers);
    };
    let Some(length) = length_in(fields) else {
        return Err(Refusal::Headers);
    };
    Ok(Head {
        method: asked,
        envelope,
        length: length as usize,
    })
}

/// Whether the length of the body is not told, or told in another way.
fn lacks_length(fields: &[Header]) -> bool
    ensures { result ≡ lacks_length (map header_parts fields.now) }
{
    first_value(fields, "content-length").is_none()
        || first_value(fields, "transfer-encoding").is_some()
}

/// Whether the first `Content-Length` is a number over `MOST_BODY_BYTES`, however long.
fn is_large(fields: &[Header]) -> bool
    ensures { result ≡ is_large (map header_parts fields.now) }
{
    match first_value(fields, "content-length") {
        Some(value) => is_over_limit(value),
        None => false,
    }
}

/// Whether a value is a number over `MOST_BODY_BYTES`, however long.
fn is_over_limit(value: &[u8]) -> bool
    ensures { result ≡ is_over_limit value.now }
{
    is_decimal(value) && read_decimal(value, MOST_BODY_BYTES).is_none()
}

/// Whether a content coding is told that is not exactly `identity`.
fn is_compressed(fields: &[Header]) -> bool
    ensures { result ≡ is_compressed (map header_parts fields.now) }
{
    for field in fields {
        if has_name(field, "content-encoding") && field.value != b"identity".as_slice() {
            return true;
        }
    }
    false
}

/// The envelope that the fields tell, if each of its four stands exactly once and has its form.
fn read_envelope(fields: &[Header]) -> Option<Envelope>
    ensures { ReadsEnvelope (map header_parts fields.now) result }
{
    let host = host_in(fields)?;
    let session = session_in(fields)?;
    let step = step_in(fields)?;
    let base = base_in(fields)? as i64;
    Some(Envelope {
        host,
        session,
        step,
        base,
    })
}
