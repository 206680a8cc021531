// Rows that travel: graves go as their ids, and no row is lost.
ghost use Rattle.std.specs.Prelude.{◌≡◌, ℤ, List, ◌++◌};
ghost use Rattle.ak_keep.specs.Collections.{Collection, Rows};
ghost use Rattle.ak_merge.specs.Takings.{all_taken};
ghost use Rattle.ak_messages.specs.declared.requests.Ask.{Ask};
ghost use Rattle.ak_session.specs.Answers.{all_given};
ghost use Rattle.ak_session.specs.Plans.{planned};
ghost use Rattle.ak_session.specs.Replies.{all_replied};
ghost use Rattle.ak_session.specs.Sessions.{MaySync};
ghost use Rattle.ak_merge.specs.declared.sides.Side.TheVariants.{Device};

/// What the replies to any front of a sync bring makes of any rows what the rows that the server gave make of them. The
/// tags and the settings are those that it gave.
pub fn replies_bring_what_is_given()
    ensures rows { (c s : Collection) (asked more : List Ask) (usn : ℤ) (held : Rows) → MaySync c s
        → asked ++ more ≡ planned c s
        → all_taken Device usn (all_replied s asked).rows held ≡ all_taken Device usn (all_given s asked).rows held }
    ensures tags { (s : Collection) (asked : List Ask) → (all_replied s asked).tags ≡ (all_given s asked).tags }
    ensures settings { (s : Collection) (asked : List Ask)
        → (all_replied s asked).settings ≡ (all_given s asked).settings }
{}
