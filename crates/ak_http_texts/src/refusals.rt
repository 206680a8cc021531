use ak_messages::Word;

/// Why a request over HTTP was refused before it was served. Each stands where its test stands in the order of the tests,
/// but for `Memory`, which may come in place of any of them that needs memory.
#[derive(Clone, Copy, Debug, PartialEq, Eq)]
pub enum Refusal {
    /// There is no head in the first 16,384 bytes with at most 64 headers, or the input ends within it.
    Head,
    /// The path is not `/sync/` and the name of a method.
    Route,
    /// The HTTP method is not `POST`.
    Method,
    /// There is no `Content-Length`, or there is a `Transfer-Encoding`.
    Length,
    /// The first `Content-Length` is over 268,435,456.
    Large,
    /// There is a `Content-Encoding` other than `identity`.
    Compressed,
    /// One of the five headers of a request is repeated, missing or not of its form.
    Headers,
    /// The input ends within the body.
    Cut,
    /// The body is not read as a request of its method.
    Body,
    /// Out of memory, and the server is as it was.
    Memory,
}

impl Refusal {
    ghost use Rattle.std.specs.Prelude.{◌≡◌};
    ghost use Rattle.ak_http_texts.specs.Refusals.{status_of, word_of};

    /// Its status: 400, 404, 405, 411, 413, 415 or 500.
    pub fn status(self) -> u16
        ensures { result ≡ status_of self }
    {
        match self {
            Refusal::Head | Refusal::Headers | Refusal::Cut | Refusal::Body => 400,
            Refusal::Route => 404,
            Refusal::Method => 405,
            Refusal::Length => 411,
            Refusal::Large => 413,
            Refusal::Compressed => 415,
            Refusal::Memory => 500,
        }
    }

    /// The word that names it in the body of the reply.
    pub fn word(self) -> Word
        ensures { result ≡ word_of self }
    {
        match self {
            Refusal::Head => Word::Head,
            Refusal::Route => Word::Route,
            Refusal::Method => Word::Method,
            Refusal::Length => Word::Length,
            Refusal::Large => Word::Large,
            Refusal::Compressed => Word::Compressed,
            Refusal::Headers => Word::Headers,
            Refusal::Cut => Word::Cut,
            Refusal::Body => Word::Body,
            Refusal::Memory => Word::Memory,
        }
    }
}
