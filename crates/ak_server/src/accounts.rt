// What a server has of an account.
use ak_base::{HostKey, Text};
use ak_server_rules::{Kept, Session};

/// An account: its keeper, the session that is live, and the reply that is kept. While a session has started the keeper is
/// marked, so that its current collection is what the session made, and its mark the committed one.
#[derive(Drop)]
pub struct Account<K> {
    pub(crate) name: Text,
    pub(crate) host: HostKey,
    pub(crate) keeper: K,
    pub(crate) live: Option<Session>,
    pub(crate) kept: Option<Kept>,
}
