// What a session gives: graves, changes, and the slices of one list, which add up to it.
ghost use Rattle.std.specs.Prelude.{◌≡◌, ◌<◌, ◌+◌, ◌*◌, ◌↔◌, int_lt, if◌then◌else◌, ℕ, ℤ, List, [], ◌∷◌, ◌++◌, length, take, None, Some};
ghost use Rattle.std.specs.List.{AllByRecursion};
ghost use Rattle.ak_base.specs.declared.rows.Row.{Row};
ghost use Rattle.ak_keep.specs.Collections.{Collection};
ghost use Rattle.ak_keep.specs.declared.keepers.Wanted.TheVariants.{From};
ghost use Rattle.ak_merge.specs.Commits.{settings_of};
ghost use Rattle.ak_merge.specs.Exchanges.{wanted_tags};
ghost use Rattle.ak_messages.specs.declared.replies.Give.TheVariants as gives;
ghost use Rattle.ak_messages.specs.declared.requests.Ask.TheVariants as asks;
ghost use Rattle.ak_messages.specs.declared.requests.Changes.{Changes};
ghost use Rattle.ak_messages.specs.declared.requests.Request.{Request};
ghost use Rattle.ak_session.specs.Answers.{chunk_count};
ghost use Rattle.ak_session.specs.Asks.{asks_of};
ghost use Rattle.ak_session.specs.Contents.{folded, answer};
ghost use Rattle.ak_session.specs.Messages.{grave_ids, chunk_of, changes_of};
ghost use Rattle.ak_session.specs.Slices.{wanted_graves, wanted_changes, wanted_in_chunks, slice, slices, joined_parts, filled_slices, slices_until_short};

/// A start is given the graves with at least the usn that it tells. Changes are given the note types, decks,
/// options and tags with at least that usn of what the session made so far, and its settings unless the device was
/// changed last.
pub fn starts_and_changes_are_given()
    ensures start { (committed : Collection) (start : Request) (min_usn lmod : ℤ) → start.ask ≡ asks.Start min_usn lmod
        → answer committed [] start ≡ gives.Graves (grave_ids (wanted_graves (From min_usn) committed.rows)) }
    ensures changes { (committed : Collection) (start : Request) (accepted : List Request) (request : Request)
        → (min_usn lmod : ℤ) (changes : Changes) → start.ask ≡ asks.Start min_usn lmod
        → request.ask ≡ asks.ApplyChanges changes → let held = folded committed (start ∷ accepted) in
        answer committed (start ∷ accepted) request ≡ gives.Changes (changes_of (record {
          rows = wanted_changes (From min_usn) held.rows;
          tags = wanted_tags (From min_usn) held.head.tags;
          settings = if int_lt committed.head.moment lmod then None else Some (settings_of held.head);
        })) }
{}

/// Each chunk that is asked after a start is given the next slice of one list: the reviews, then the cards, then the
/// notes of what the session made, with at least the usn that the start tells. Chunks leave the list as it is.
pub fn chunks_are_slices()
    ensures next { (committed : Collection) (start : Request) (accepted : List Request) (request : Request)
        → (min_usn lmod : ℤ) → start.ask ≡ asks.Start min_usn lmod → request.ask ≡ asks.Chunk
        → answer committed (start ∷ accepted) request ≡ gives.Chunk (chunk_of (slice (chunk_count (asks_of accepted))
        (wanted_in_chunks (From min_usn) (folded committed (start ∷ accepted)).rows))) }
    ensures same { (committed : Collection) (accepted chunks : List Request)
        → AllByRecursion (λ (chunk : Request). chunk.ask ≡ asks.Chunk) chunks
        → folded committed (accepted ++ chunks) ≡ folded committed accepted }
    ensures count { (accepted chunks : List Request)
        → AllByRecursion (λ (chunk : Request). chunk.ask ≡ asks.Chunk) chunks
        → chunk_count (asks_of (accepted ++ chunks)) ≡ chunk_count (asks_of accepted) + length chunks }
{}

/// Slices from the first on are the front of the list, each place of it once. Those that have a row are all of it, and
/// so are those up to the first that is not full.
pub fn slices_add_up()
    ensures front { (count : ℕ) (list : List Row) → joined_parts (slices count list) ≡ take (250 * count) list }
    ensures filled { (list : List Row) → joined_parts (filled_slices list) ≡ list }
    ensures until_short { (list : List Row) → joined_parts (slices_until_short list) ≡ list }
    ensures short { (k : ℕ) (list : List Row) → (length (slice k list) < 250) ↔ (length list < 250 * (k + 1)) }
{}
