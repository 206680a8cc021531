/// How the serving of a link ended.
#[derive(Clone, Copy, Debug, PartialEq, Eq)]
pub enum LinkEnd {
    /// The whole reply was written. This is its status: 200, or 400 to 503.
    Served(u16),
    /// The link failed before the whole reply was written. The request may have been served.
    Failed,
    /// Memory ran out for the text of the reply to a request that was served. Nothing was written.
    Memory,
}
