// What a served request leaves between a device and the server.
ghost use Rattle.std.specs.Prelude.{ℤ, List};
ghost use Rattle.ak_messages.specs.declared.replies.Reply.{Reply};
ghost use Rattle.ak_messages.specs.declared.requests.Request.{Request};
ghost use Rattle.ak_protocol.specs.Servers.{ServerState};
ghost use Rattle.ak_server.specs.Servers.{LinksStay, ServesOne};
ghost use Rattle.ak_server.specs.declared.accounts.Account.{Account};

use ak_keep::Keeper;

/// A device that is linked with what the account of a request's host key has committed, which a server may hold, is linked with what
/// that account has committed once the request was served, if no commit of the request gives a schema moment of the device's.
pub fn served_links_stay<K: Keeper>()
    ensures { (accounts : List (Account K)) (server : ServerState) (request : Request) (now : ℤ) (reply : Reply)
        → (did : ServesOne K.keeping accounts server request now reply) → LinksStay server request now did.setback }
{}
