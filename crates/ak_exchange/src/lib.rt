// What a sync asks after its meta, over a marked keeper and a wire: it exchanges what the two sides lack, part by part, up to
// the finish. The keeper is neither marked nor committed here.
#![tactic(auto)]

mod envelopes;
mod exchange_laws;
mod exchanges;
mod stops;

pub use envelopes::{Envelopes, Ids, Met, meta_request};
pub use exchange_laws::all_is_settled;
pub use exchanges::{compare, exchange, exchange_changes, finish, pull, push, send_graves, start};
pub use stops::Stop;
