ghost use Rattle.std.specs.Prelude.{◌≡◌, true, IfOk, IsOk};
ghost use Rattle.ak_messages.specs.MessageForms.{is_given_to};
ghost use Rattle.ak_messages.specs.declared.methods.Method.TheVariants as methods;

use crate::methods::Method;
use crate::requests::{Changes, Chunk, GraveIds, SanityCounts, Whole};
use ak_base::{Memory, Text};
use ak_merge::CheckFault;

/// What a server answers.
#[derive(Debug, PartialEq, Drop)]
pub struct Reply {
    /// 200 if the server did what was asked, else 400 to 503.
    pub status: u16,
    pub word: Word,
    /// What the server has seen: a moment, a step or a usn, by the word; 0 where it has nothing to tell.
    pub seen: i64,
    pub give: Give,
}

/// Why a request was refused, in one word; `Ok` where it was not.
#[derive(Clone, Copy, Debug, PartialEq, Eq)]
pub enum Word {
    Ok,
    Key,
    Base,
    NoSession,
    Step,
    Usn,
    Sequence,
    Rows,
    Row,
    Newer,
    Keeper,
    Memory,
    Head,
    Route,
    Method,
    Length,
    Large,
    Compressed,
    Headers,
    Cut,
    Body,
}

/// What a reply gives, by the method that was asked; nothing where the request was refused.
#[derive(Debug, PartialEq, Drop)]
pub enum Give {
    Nothing,
    Meta(MetaReply),
    Graves(GraveIds),
    Changes(Changes),
    Chunk(Chunk),
    Sanity(SanityReply),
    /// Of a finish: the new moment, in milliseconds.
    Moment(i64),
    /// Of an upload: both new moments, in milliseconds.
    Uploaded { moment: i64, schema: i64 },
    Whole(Whole),
}

/// Where the server stands.
#[derive(Debug, PartialEq, Drop)]
pub struct MetaReply {
    /// The schema moment of the committed collection, in milliseconds.
    pub scm: i64,
    /// The server's clock, in seconds.
    pub ts: i64,
    /// The moment of the committed collection, in milliseconds.
    pub moment: i64,
    pub usn: i64,
    /// 0: there are no media.
    pub musn: i64,
    /// A text for the user, empty here.
    pub msg: Text,
    /// Whether the sync may go on.
    pub cont: bool,
}

/// Whether both sides hold what they should.
#[derive(Debug, PartialEq, Drop)]
pub struct SanityReply {
    pub good: bool,
    /// Why the server's collection would not be sound; none where it would, or where the reply is good.
    pub fault: Option<CheckFault>,
    pub client: SanityCounts,
    pub server: SanityCounts,
}

impl Reply {
    /// An equal reply of its own. What a finish is given takes no memory.
    pub fn copy(&self) -> Result<Reply, Memory>
        ensures made { IfOk result (λ made. made ≡ self.now) }
        ensures spares { is_given_to methods.Finish self.now.give ≡ true → IsOk result }
    {
        Ok(Reply {
            status: self.status,
            word: self.word,
            seen: self.seen,
            give: self.give.copy()?,
        })
    }
}

impl Give {
    /// Whether a reply to this method gives it if it has status 200. Its numbers may be in any range.
    pub fn is_given_to(&self, method: Method) -> bool
        ensures { result ≡ is_given_to method self.now }
    {
        match method {
            Method::Meta => matches!(self, Give::Meta(_)),
            Method::Start => matches!(self, Give::Graves(_)),
            Method::ApplyGraves | Method::ApplyChunk => matches!(self, Give::Nothing),
            Method::ApplyChanges => matches!(self, Give::Changes(_)),
            Method::Chunk => matches!(self, Give::Chunk(_)),
            Method::SanityCheck2 => matches!(self, Give::Sanity(_)),
            Method::Finish => matches!(self, Give::Moment(_)),
            Method::Upload => matches!(self, Give::Uploaded { .. }),
            Method::Download => matches!(self, Give::Whole(_)),
        }
    }

    /// An equal one of its own. What a finish is given takes no memory.
    pub fn copy(&self) -> Result<Give, Memory>
        ensures made { IfOk result (λ made. made ≡ self.now) }
        ensures spares { is_given_to methods.Finish self.now ≡ true → IsOk result }
    {
        match self {
            Give::Nothing => Ok(Give::Nothing),
            Give::Meta(meta) => Ok(Give::Meta(meta.copy()?)),
            Give::Graves(ids) => Ok(Give::Graves(ids.copy()?)),
            Give::Changes(changes) => Ok(Give::Changes(changes.copy()?)),
            Give::Chunk(chunk) => Ok(Give::Chunk(chunk.copy()?)),
            Give::Sanity(sanity) => Ok(Give::Sanity(sanity.copy())),
            Give::Moment(moment) => Ok(Give::Moment(*moment)),
            Give::Uploaded { moment, schema } => Ok(Give::Uploaded {
                moment: *moment,
                schema: *schema,
            }),
            Give::Whole(whole) => Ok(Give::Whole(whole.copy()?)),
        }
    }
}

impl MetaReply {
    /// An equal one of its own.
    pub fn copy(&self) -> Result<MetaReply, Memory>
        ensures { IfOk result (λ made. made ≡ self.now) }
    {
        Ok(MetaReply {
            scm: self.scm,
            ts: self.ts,
            moment: self.moment,
            usn: self.usn,
            musn: self.musn,
            msg: self.msg.copy()?,
            cont: self.cont,
        })
    }
}

impl SanityReply {
    /// An equal one of its own. It takes no memory.
    pub fn copy(&self) -> SanityReply
        ensures { result ≡ self.now }
    {
        SanityReply {
            good: self.good,
            fault: self.fault,
            client: self.client,
            server: self.server,
        }
    }
}
