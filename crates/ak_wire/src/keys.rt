ghost use Rattle.std.specs.Prelude.{◌≡◌};
ghost use Rattle.ak_wire.specs.Keys.{key_text};

/// The keys of the objects of messages. Those of rows and settings are not among them.
#[derive(Clone, Copy)]
pub(crate) enum Key {
    C,
    Cards,
    Changes,
    Chunk,
    Client,
    Conf,
    Cont,
    Crt,
    Decks,
    Done,
    Graves,
    Lmod,
    MinUsn,
    Mod,
    Models,
    Msg,
    Musn,
    Notes,
    Options,
    Revlog,
    Row,
    S,
    Scm,
    Seen,
    Status,
    Tags,
    Ts,
    Usn,
    Word,
}

impl Key {
    /// The key as it stands in the object.
    pub(crate) fn text(self) -> &'static str
        ensures { result.now ≡ key_text self }
    {
        match self {
            Key::C => "c",
            Key::Cards => "cards",
            Key::Changes => "changes",
            Key::Chunk => "chunk",
            Key::Client => "client",
            Key::Conf => "conf",
            Key::Cont => "cont",
            Key::Crt => "crt",
            Key::Decks => "decks",
            Key::Done => "done",
            Key::Graves => "graves",
            Key::Lmod => "lmod",
            Key::MinUsn => "minUsn",
            Key::Mod => "mod",
            Key::Models => "models",
            Key::Msg => "msg",
            Key::Musn => "musn",
            Key::Notes => "notes",
            Key::Options => "options",
            Key::Revlog => "revlog",
            Key::Row => "row",
            Key::S => "s",
            Key::Scm => "scm",
            Key::Seen => "seen",
            Key::Status => "status",
            Key::Tags => "tags",
            Key::Ts => "ts",
            Key::Usn => "usn",
            Key::Word => "word",
        }
    }
}
