// What holds of the texts, as the contracts of functions that do nothing.
ghost use Rattle.std.specs.Prelude.{◌≡◌, ℕ, List, ◌++◌, length, codes};
ghost use Rattle.ak_wire.specs.Words.{word_text};
ghost use Rattle.ak_http_texts.specs.Refusals.{status_of, word_of};
ghost use Rattle.ak_http_texts.specs.ReplyTexts.{head_text, http_text, refusal_http};
ghost use Rattle.ak_http_texts.specs.declared.refusals.Refusal.TheVariants as refusals;

/// The status and the word of each refusal.
pub fn refusals_are_worded()
    ensures head { (status_of refusals.Head ≡ 400) × (word_text (word_of refusals.Head) ≡ codes "head") }
    ensures route { (status_of refusals.Route ≡ 404) × (word_text (word_of refusals.Route) ≡ codes "route") }
    ensures method { (status_of refusals.Method ≡ 405) × (word_text (word_of refusals.Method) ≡ codes "method") }
    ensures length { (status_of refusals.Length ≡ 411) × (word_text (word_of refusals.Length) ≡ codes "length") }
    ensures large { (status_of refusals.Large ≡ 413) × (word_text (word_of refusals.Large) ≡ codes "large") }
    ensures compressed { (status_of refusals.Compressed ≡ 415) × (word_text (word_of refusals.Compressed) ≡ codes "compressed") }
    ensures headers { (status_of refusals.Headers ≡ 400) × (word_text (word_of refusals.Headers) ≡ codes "headers") }
    ensures cut { (status_of refusals.Cut ≡ 400) × (word_text (word_of refusals.Cut) ≡ codes "cut") }
    ensures body { (status_of refusals.Body ≡ 400) × (word_text (word_of refusals.Body) ≡ codes "body") }
    ensures memory { (status_of refusals.Memory ≡ 500) × (word_text (word_of refusals.Memory) ≡ codes "memory") }
{}

/// The text of a reply is a head of its status and the size of its body, and then the body. A whole text, in full.
#[tactic(auto, using(crate::proofs::Texts::head_of_ok, crate::proofs::Texts::told_compressed))]
pub fn texts_are_heads_and_bodies()
    ensures whole { (status : ℕ) (body : List ℕ) → http_text status body ≡ head_text status (length body) ++ body }
    ensures ok { head_text 200 95
        ≡ codes "HTTP/1.1 200 OK\r\nContent-Type: application/json\r\nContent-Length: 95\r\nConnection: close\r\n\r\n" }
    ensures refused { refusal_http refusals.Compressed
        ≡ codes "HTTP/1.1 415 Refused\r\nContent-Type: application/json\r\nContent-Length: 30\r\nConnection: close\r\n\r\n"
        ++ codes "{\"seen\":0,\"word\":\"compressed\"}" }
{}
