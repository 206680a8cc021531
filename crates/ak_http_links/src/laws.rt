// What holds of the bytes of links, apart from the program.
ghost use Rattle.std.specs.Prelude.{◌≡◌, ◌≢◌, ℕ, List, Result, Err};
ghost use Rattle.httparse.specs.Grammar.{RequestHead};
ghost use Rattle.ak_http_heads.specs.Heads.{IsHead, HasNoHead};
ghost use Rattle.ak_http_texts.specs.declared.refusals.Refusal.{Refusal};
ghost use Rattle.ak_http_texts.specs.declared.refusals.Refusal.TheVariants as refusals;
ghost use Rattle.ak_messages.specs.declared.requests.Request.{Request};
ghost use Rattle.ak_http_links.specs.LinkReads.{IsDecided, ReadsBytes};

/// Bytes ask one thing at most, or are refused for one reason, and but for bytes without a head the same of them are left.
pub fn bytes_ask_one_thing()
    ensures { (bytes left rest : List ℕ) (reading other : Result Request Refusal) → IsDecided reading → IsDecided other
        → ReadsBytes bytes left reading → ReadsBytes bytes rest other
        → (reading ≡ other) × (reading ≢ Err refusals.Head → left ≡ rest) }
{}

/// Bytes that begin with a head ask something or are refused, whatever follows it; bytes that begin with none are refused.
pub fn bytes_ask_or_are_refused()
    ensures head { (bytes behind : List ℕ) (head : RequestHead) → IsHead bytes head behind
        → (left : List ℕ) × (reading : Result Request Refusal) × IsDecided reading × ReadsBytes bytes left reading }
    ensures none { (bytes : List ℕ) → HasNoHead bytes → ReadsBytes bytes bytes (Err refusals.Head) }
{}
