// The form of what is given.
ghost use Rattle.std.specs.Prelude.{◌≡◌, ◌≤◌, true, false, ℤ, List, ◌∷◌, ◌++◌};
ghost use Rattle.ak_keep.specs.Collections.{Collection, Rows};
ghost use Rattle.ak_merge.specs.Takings.{all_taken};
ghost use Rattle.ak_messages.specs.MessageForms.{chunk_entries, is_given_to};
ghost use Rattle.ak_messages.specs.declared.replies.Give.TheVariants as gives;
ghost use Rattle.ak_messages.specs.declared.requests.Ask.TheVariants as asks;
ghost use Rattle.ak_messages.specs.declared.requests.Chunk.{Chunk};
ghost use Rattle.ak_messages.specs.declared.requests.Request.{Request};
ghost use Rattle.ak_session.specs.Answers.{given_for};
ghost use Rattle.ak_session.specs.Asks.{asks_of};
ghost use Rattle.ak_session.specs.Contents.{answer};
ghost use Rattle.ak_session.specs.Plans.{Asker, plan};
ghost use Rattle.ak_session.specs.Replies.{replied};
ghost use Rattle.ak_session.specs.Requests.{asked_method, asks_commit, is_download, is_meta};
ghost use Rattle.ak_session.specs.Sessions.{MaySync};
ghost use Rattle.ak_merge.specs.declared.sides.Side.TheVariants.{Device};

/// What a request is given has the form of its method. In a sync a chunk has at most 250 rows, and one that is not done
/// has 250; and what a reply brings makes of any rows what the rows that the server gave make of them.
pub fn answers_have_their_form()
    ensures give { (committed : Collection) (accepted : List Request) (request : Request)
        → is_meta request.ask ≡ false → is_download request.ask ≡ false → asks_commit request.ask ≡ false
        → is_given_to (asked_method request.ask) (answer committed accepted request) ≡ true }
    ensures chunk { (who : Asker) (c s : Collection) (before : List Request) (request : Request) (after : List Request)
        → MaySync c s → before ++ request ∷ after ≡ plan who c s → request.ask ≡ asks.Chunk
        → (chunk : Chunk) × (answer s before request ≡ gives.Chunk chunk) × (chunk_entries chunk ≤ 250)
        × (chunk.done ≡ false → chunk_entries chunk ≡ 250) }
    ensures rows { (who : Asker) (c s : Collection) (before : List Request) (request : Request) (after : List Request)
        → (usn : ℤ) (held : Rows) → MaySync c s → before ++ request ∷ after ≡ plan who c s
        → all_taken Device usn (replied (answer s before request)).rows held
        ≡ all_taken Device usn (given_for s (asks_of before) request.ask).rows held }
{}
