ghost use Rattle.std.specs.Prelude.{◌≡◌};
ghost use Rattle.ak_session.specs.Requests.{asked_method};

use ak_messages::{Ask, Method};

/// The method of what is asked.
pub fn asked_method(ask: &Ask) -> Method
    ensures { result ≡ asked_method ask.now }
{
    match ask {
        Ask::Meta => Method::Meta,
        Ask::Start { .. } => Method::Start,
        Ask::ApplyGraves(_) => Method::ApplyGraves,
        Ask::ApplyChanges(_) => Method::ApplyChanges,
        Ask::Chunk => Method::Chunk,
        Ask::ApplyChunk(_) => Method::ApplyChunk,
        Ask::SanityCheck2(_) => Method::SanityCheck2,
        Ask::Finish => Method::Finish,
        Ask::Upload(_) => Method::Upload,
        Ask::Download => Method::Download,
    }
}
