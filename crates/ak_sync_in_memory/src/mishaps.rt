ghost use Rattle.std.specs.Prelude.{◌≡◌};
ghost use Rattle.ak_sync_in_memory.specs.Mishaps.{happens, same_what};

/// What happens to the messages of one call of a wire.
#[derive(Clone, Copy, Debug, PartialEq, Eq)]
pub struct Mishap {
    /// The number of the call, counted from 0 over all calls of the wire, tries too.
    pub call: u64,
    pub what: What,
}

/// A kind of mishap. At one call each may happen.
#[derive(Clone, Copy, Debug, PartialEq, Eq)]
pub enum What {
    /// The request never comes to the server: it is not served, also if it is repeated.
    LoseRequest,
    /// The request is served, and the reply is lost.
    LoseReply,
    /// The request is served twice in a row, and the second reply counts.
    Repeat,
}

/// Whether this happens at the call of this number.
pub(crate) fn happens(what: What, call: u64, mishaps: &[Mishap]) -> bool
    ensures { result ≡ happens what call mishaps.now }
{
    mishaps.iter().any(|mishap| mishap.call == call && same_what(what, mishap.what))
}

/// Whether two mishaps are of one kind.
fn same_what(a: What, b: What) -> bool
    ensures { result ≡ same_what a b }
{
    match (a, b) {
        (What::LoseRequest, What::LoseRequest) => true,
        (What::LoseReply, What::LoseReply) => true,
        (What::Repeat, What::Repeat) => true,
        _ => false,
    }
}
