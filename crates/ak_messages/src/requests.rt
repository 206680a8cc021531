ghost use Rattle.std.specs.Prelude.{◌≡◌, IfOk};
ghost use Rattle.ak_messages.specs.MessageForms.{chunk_entries, grave_entries};

use ak_base::{
    Card, Conf, Deck, HostKey, List, Memory, Note, NoteType, Options, Review, Row, SessionKey, Tag,
    Text, copy_each,
};

/// The most rows of one chunk, and the most ids of graves that one request brings, over their lists together.
pub const MOST_ENTRIES: u64 = 250;

/// Who asks, and where in which sync.
#[derive(Clone, Copy, Debug, PartialEq, Eq)]
pub struct Envelope {
    pub host: HostKey,
    pub session: SessionKey,
    /// 0 for a meta, and one more for each request after it.
    pub step: u64,
    /// The moment of the server's committed collection, as its meta told it, in milliseconds; 0 in a meta.
    pub base: i64,
}

/// One request of a sync.
#[derive(Debug, PartialEq, Drop)]
pub struct Request {
    pub host: HostKey,
    pub session: SessionKey,
    pub step: u64,
    pub base: i64,
    pub ask: Ask,
}

/// What a request asks, by its method.
#[derive(Debug, PartialEq, Drop)]
pub enum Ask {
    Meta,
    /// The device's usn, and the moment of its last change in milliseconds.
    Start { min_usn: i64, lmod: i64 },
    ApplyGraves(GraveIds),
    ApplyChanges(Changes),
    Chunk,
    ApplyChunk(Chunk),
    SanityCheck2(SanityCounts),
    Finish,
    Upload(Whole),
    Download,
}

/// The ids of deleted rows, each list by ascending id.
#[derive(Debug, PartialEq, Drop)]
pub struct GraveIds {
    pub cards: List<i64>,
    pub notes: List<i64>,
    pub decks: List<i64>,
}

/// What a side changed of all that is not sent by chunks, rows by id and tags by bytes.
#[derive(Debug, PartialEq, Drop)]
pub struct Changes {
    pub models: List<NoteType>,
    pub decks: List<Deck>,
    pub options: List<Options>,
    pub tags: List<Text>,
    /// Only the side that changed last sends its settings.
    pub newer: Option<Newer>,
}

/// The settings and the moment of creation of the side that changed last.
#[derive(Debug, PartialEq, Drop)]
pub struct Newer {
    pub conf: Conf,
    /// In seconds.
    pub crt: i64,
}

/// Some of the rows that a side changed: at most 250, reviews first, then cards, then notes, each by ascending id.
#[derive(Debug, PartialEq, Drop)]
pub struct Chunk {
    /// Whether no more chunk comes.
    pub done: bool,
    pub reviews: List<Review>,
    pub cards: List<Card>,
    pub notes: List<Note>,
}

/// How many rows a side has, by kind.
#[derive(Clone, Copy, Debug, PartialEq, Eq)]
pub struct SanityCounts {
    pub cards: u64,
    pub notes: u64,
    pub reviews: u64,
    pub graves: u64,
    pub models: u64,
    pub decks: u64,
    pub options: u64,
}

/// A whole collection: its rows by table and id, and its head but for the moment of the last sync.
#[derive(Debug, PartialEq, Drop)]
pub struct Whole {
    pub rows: List<Row>,
    pub crt: i64,
    pub moment: i64,
    pub schema: i64,
    pub usn: i64,
    pub conf: Conf,
    /// By the bytes of their names.
    pub tags: List<Tag>,
}

impl Request {
    /// An equal request of its own.
    pub fn copy(&self) -> Result<Request, Memory>
        ensures { IfOk result (λ made. made ≡ self.now) }
    {
        Ok(Request {
            host: self.host,
            session: self.session,
            step: self.step,
            base: self.base,
            ask: self.ask.copy()?,
        })
    }
}

impl Ask {
    /// An equal one of its own.
    pub fn copy(&self) -> Result<Ask, Memory>
        ensures { IfOk result (λ made. made ≡ self.now) }
    {
        match self {
            Ask::Meta => Ok(Ask::Meta),
            Ask::Start { min_usn, lmod } => Ok(Ask::Start {
                min_usn: *min_usn,
                lmod: *lmod,
            }),
            Ask::ApplyGraves(ids) => Ok(Ask::ApplyGraves(ids.copy()?)),
            Ask::ApplyChanges(changes) => Ok(Ask::ApplyChanges(changes.copy()?)),
            Ask::Chunk => Ok(Ask::Chunk),
            Ask::ApplyChunk(chunk) => Ok(Ask::ApplyChunk(chunk.copy()?)),
            Ask::SanityCheck2(counts) => Ok(Ask::SanityCheck2(*counts)),
            Ask::Finish => Ok(Ask::Finish),
            Ask::Upload(whole) => Ok(Ask::Upload(whole.copy()?)),
            Ask::Download => Ok(Ask::Download),
        }
    }
}

impl GraveIds {
    /// How many ids they are, over the three lists. More than `MOST_ENTRIES` are refused in a request; the
    /// graves that answer a start may be more.
    pub fn entries(&self) -> u64
        ensures { result ≡ grave_entries self.now }
    {
        let cards = self.cards.as_slice().len() as u64;
        let notes = self.notes.as_slice().len() as u64;
        let decks = self.decks.as_slice().len() as u64;
        cards + notes + decks
    }

    /// Equal ids of their own.
    pub fn copy(&self) -> Result<GraveIds, Memory>
        ensures { IfOk result (λ made. made ≡ self.now) }
    {
        Ok(GraveIds {
            cards: self.cards.copy()?,
            notes: self.notes.copy()?,
            decks: self.decks.copy()?,
        })
    }
}

impl Changes {
    /// Equal changes of their own.
    pub fn copy(&self) -> Result<Changes, Memory>
        ensures { IfOk result (λ made. made ≡ self.now) }
    {
        let newer = match &self.newer {
            Some(newer) => Some(newer.copy()?),
            None => None,
        };
        Ok(Changes {
            models: copy_each(&self.models, |item| item.copy())?,
            decks: copy_each(&self.decks, |item| item.copy())?,
            options: copy_each(&self.options, |item| item.copy())?,
            tags: copy_each(&self.tags, |item| item.copy())?,
            newer,
        })
    }
}

impl Newer {
    /// Equal settings of their own.
    fn copy(&self) -> Result<Newer, Memory>
        ensures { IfOk result (λ made. made ≡ self.now) }
    {
        let conf = self.conf.copy()?;
        Ok(Newer {
            conf,
            crt: self.crt,
        })
    }
}

impl Chunk {
    /// How many rows it has, over its lists. More than `MOST_ENTRIES` are refused.
    pub fn entries(&self) -> u64
        ensures { result ≡ chunk_entries self.now }
    {
        let reviews = self.reviews.as_slice().len() as u64;
        let cards = self.cards.as_slice().len() as u64;
        let notes = self.notes.as_slice().len() as u64;
        reviews + cards + notes
    }

    /// An equal chunk of its own.
    pub fn copy(&self) -> Result<Chunk, Memory>
        ensures { IfOk result (λ made. made ≡ self.now) }
    {
        Ok(Chunk {
            done: self.done,
            reviews: self.reviews.copy()?,
            cards: copy_each(&self.cards, |item| item.copy())?,
            notes: copy_each(&self.notes, |item| item.copy())?,
        })
    }
}

impl Whole {
    /// An equal collection of its own.
    pub fn copy(&self) -> Result<Whole, Memory>
        ensures { IfOk result (λ made. made ≡ self.now) }
    {
        Ok(Whole {
            rows: copy_each(&self.rows, |item| item.copy())?,
            crt: self.crt,
            moment: self.moment,
            schema: self.schema,
            usn: self.usn,
            conf: self.conf.copy()?,
            tags: copy_each(&self.tags, |item| item.copy())?,
        })
    }
}
