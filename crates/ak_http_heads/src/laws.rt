// What holds of heads, apart from the program.
ghost use Rattle.std.specs.Prelude.{◌≡◌, ◌≢◌, ◌++◌, ◌⊎◌, ℕ, List, [], ◌∷◌, Some, None, Result, Err, codes};
ghost use Rattle.httparse.specs.Grammar.{RequestHead};
ghost use Rattle.ak_messages.specs.declared.methods.Method.{Method};
ghost use Rattle.ak_messages.specs.Methods.{name_of};
ghost use Rattle.ak_http_texts.specs.declared.refusals.Refusal.{Refusal};
ghost use Rattle.ak_http_texts.specs.declared.refusals.Refusal.TheVariants as refusals;
ghost use Rattle.ak_http_heads.specs.declared.heads.Head.{Head};
ghost use Rattle.ak_http_heads.specs.declared.heads.HeadFault.{HeadFault};
ghost use Rattle.ak_http_heads.specs.declared.heads.HeadFault.TheVariants as faults;
ghost use Rattle.ak_http_heads.specs.Fields.{session_number, host_in, step_in, base_in};
ghost use Rattle.ak_http_heads.specs.Heads.{IsHead, route_of, fault_of, HeadAsks, head_fault};
ghost use Rattle.ak_http_heads.specs.Reads.{ReadsHead, IsReading};

/// Bytes have at most one answer, and but for bytes without a head it leaves the same of them.
pub fn bytes_are_read_in_one_way()
    ensures { (bytes left rest : List ℕ) (answer other : Result Head HeadFault) → IsReading answer → IsReading other
        → ReadsHead bytes left answer → ReadsHead bytes rest other
        → (answer ≡ other) × (answer ≢ Err (faults.Refused refusals.Head) → left ≡ rest) }
{}

/// Bytes begin with at most one head, whatever follows them.
pub fn heads_are_unique()
    ensures { (bytes more : List ℕ) (head other : RequestHead) (rest left : List ℕ) → IsHead bytes head rest
        → IsHead (bytes ++ more) other left → (head ≡ other) × (rest ++ more ≡ left) }
{}

/// A head asks one thing, or fails a test, and not both.
pub fn heads_ask_or_are_refused()
    ensures some { (head : RequestHead)
        → ((asked : Head) × HeadAsks head asked) ⊎ ((why : Refusal) × (head_fault head ≡ Some why)) }
    ensures one { (head : RequestHead) (asked other : Head)
        → HeadAsks head asked → HeadAsks head other → asked ≡ other }
    ensures not_both { (head : RequestHead) (asked : Head) (why : Refusal)
        → HeadAsks head asked → head_fault head ≡ Some why → ⊥ }
{}

/// The routes are `/sync/` and a name of a method, and no other.
pub fn routes_are_named()
    ensures found { (method : Method) → route_of (codes "/sync/" ++ name_of method) ≡ Some method }
    ensures only { (target : List ℕ) (method : Method)
        → route_of target ≡ Some method → target ≡ codes "/sync/" ++ name_of method }
{}

/// The tests come in their order, each by example: a head that fails one of them and some after it.
#[tactic(auto, unfolding(ak_base::specs::Decimals::number_of, crate::specs::Fields::session_number))]
pub fn tests_come_in_order()
    ensures route { fault_of (codes "GET") (codes "/sync/meta?") [] ≡ Some refusals.Route }
    ensures method { fault_of (codes "post") (codes "/sync/meta") [] ≡ Some refusals.Method }
    ensures length { fault_of (codes "POST") (codes "/sync/meta")
        ((codes "Content-Length", codes "268435457") ∷ (codes "TRANSFER-encoding", codes "identity") ∷ [])
        ≡ Some refusals.Length }
    ensures large { fault_of (codes "POST") (codes "/sync/meta")
        ((codes "content-length", codes "99999999999999999999") ∷ (codes "Content-Encoding", codes "gzip") ∷ [])
        ≡ Some refusals.Large }
    ensures compressed { fault_of (codes "POST") (codes "/sync/meta")
        ((codes "content-length", codes "268435456") ∷ (codes "Content-Encoding", codes "Identity") ∷ [])
        ≡ Some refusals.Compressed }
    ensures headers { fault_of (codes "POST") (codes "/sync/meta")
        ((codes "Content-Length", codes "2") ∷ (codes "content-encoding", codes "identity") ∷ [])
        ≡ Some refusals.Headers }
    ensures none { fault_of (codes "POST") (codes "/sync/meta")
        ((codes "x-anki-KEY", codes "00112233445566778899aabbccddeeff")
        ∷ (codes "X-Anki-Session", codes "000000000000000a") ∷ (codes "X-Anki-Step", codes "0")
        ∷ (codes "X-Anki-Base", codes "9223372036854775807") ∷ (codes "Content-Length", codes "2") ∷ []) ≡ None }
{}

/// Values have one form each, by example. A length with a leading zero is not of its form, so it is not too large.
#[tactic(auto, unfolding(ak_base::specs::Decimals::number_of, crate::specs::Fields::session_number))]
pub fn values_have_one_form()
    ensures session { session_number (codes "00000000000000fa") ≡ Some 250 }
    ensures upper_case { session_number (codes "00000000000000FA") ≡ None }
    ensures short { session_number (codes "a") ≡ None }
    ensures step { step_in ((codes "x-anki-step", codes "18446744073709551615") ∷ [])
        ≡ Some 18_446_744_073_709_551_615 }
    ensures plus { step_in ((codes "x-anki-step", codes "+5") ∷ []) ≡ None }
    ensures twice { step_in ((codes "x-anki-step", codes "5") ∷ (codes "X-Anki-Step", codes "5") ∷ []) ≡ None }
    ensures base { base_in ((codes "x-anki-base", codes "9223372036854775808") ∷ []) ≡ None }
    ensures key { host_in ((codes "x-anki-key", codes "00112233445566778899AABBCCDDEEFF") ∷ []) ≡ None }
    ensures zero { fault_of (codes "POST") (codes "/sync/meta") ((codes "content-length", codes "0268435457") ∷ [])
        ≡ Some refusals.Headers }
    ensures first { fault_of (codes "POST") (codes "/sync/meta")
        ((codes "content-length", codes "2") ∷ (codes "content-length", codes "268435457") ∷ [])
        ≡ Some refusals.Headers }
{}
