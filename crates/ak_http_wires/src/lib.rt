// A device's way to a server over HTTP: the text of a request, the reply that the bytes of an answer are read as, and the
// wire that dials once a call, writes one request and reads one answer.
#![tactic(auto)]

mod answer_heads;
mod answers;
mod exchanges;
mod http_wires;
mod laws;
mod request_texts;

pub use answers::{AnswerFault, read_answer};
pub use http_wires::HttpWire;
pub use laws::an_answer_is_one_reply;
pub use request_texts::request_text;
