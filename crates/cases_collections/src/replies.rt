use ak_wire::{Reply, write_reply};
use cases_lines::Unread;
use std::alloc::Global;

/// The status of a reply, and its body.
pub fn reply_text(alloc: Global, reply: &Reply) -> Result<String, Unread> {
    let body = write_reply(alloc, reply)?;
    let status = reply.status;
    let text = body.as_str();
    Ok(format!(in alloc; "{status} {text}")?)
}
