ghost use Rattle.std.specs.Prelude.{◌≡◌};
ghost use Rattle.ak_messages.specs.Methods.{name_of, method_of};

/// What a request asks for, in the order in which a sync asks; a whole collection goes by `Upload` or `Download`.
#[derive(Clone, Copy, Debug, PartialEq, Eq)]
pub enum Method {
    Meta,
    Start,
    ApplyGraves,
    ApplyChanges,
    Chunk,
    ApplyChunk,
    SanityCheck2,
    Finish,
    Upload,
    Download,
}

/// The method of this name, which is the last part of a request's path: `meta`, `start`, `applyGraves`, ..
pub fn method_of(name: &str) -> Option<Method>
    ensures { result ≡ method_of name.now }
{
    match name {
        "meta" => Some(Method::Meta),
        "start" => Some(Method::Start),
        "applyGraves" => Some(Method::ApplyGraves),
        "applyChanges" => Some(Method::ApplyChanges),
        "chunk" => Some(Method::Chunk),
        "applyChunk" => Some(Method::ApplyChunk),
        "sanityCheck2" => Some(Method::SanityCheck2),
        "finish" => Some(Method::Finish),
        "upload" => Some(Method::Upload),
        "download" => Some(Method::Download),
        _ => None,
    }
}

impl Method {
    /// Its name, the last part of a request's path.
    pub fn name(self) -> &'static str
        ensures { result.now ≡ name_of self }
    {
        match self {
            Method::Meta => "meta",
            Method::Start => "start",
            Method::ApplyGraves => "applyGraves",
            Method::ApplyChanges => "applyChanges",
            Method::Chunk => "chunk",
            Method::ApplyChunk => "applyChunk",
            Method::SanityCheck2 => "sanityCheck2",
            Method::Finish => "finish",
            Method::Upload => "upload",
            Method::Download => "download",
        }
    }
}
