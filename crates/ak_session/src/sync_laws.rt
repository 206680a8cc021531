// What the requests of a sync add up to.
ghost use Rattle.std.specs.Prelude.{◌≡◌, ◌↔◌, ℕ, ℤ, pos, false, List, ◌++◌};
ghost use Rattle.std.specs.FinMap.{get};
ghost use Rattle.ak_base.specs.declared.names.Table.{Table};
ghost use Rattle.ak_keep.specs.Collections.{Rows, Collection, AscendsPast, row_count, wanted_past};
ghost use Rattle.ak_keep.specs.declared.keepers.Wanted.{Wanted};
ghost use Rattle.ak_keep.specs.declared.keepers.Wanted.TheVariants.{Unsent, From};
ghost use Rattle.ak_merge.specs.Exchanges.{wanted_tags, wanted_under, tags_from, settings_sent, settings_given};
ghost use Rattle.ak_merge.specs.Exchanges.{AreOf, IsSent, IsServerHalf};
ghost use Rattle.ak_merge.specs.Holdings.{AreNamed, row_under, content_of, SameContent};
ghost use Rattle.ak_merge.specs.Joins.{joined_under, join};
ghost use Rattle.ak_merge.specs.Soundness.{IsSound};
ghost use Rattle.ak_merge.specs.Tags.{has_name};
ghost use Rattle.ak_merge.specs.Takings.{all_taken};
ghost use Rattle.ak_messages.specs.declared.replies.Give.TheVariants as gives;
ghost use Rattle.ak_messages.specs.declared.replies.SanityReply.{SanityReply};
ghost use Rattle.ak_messages.specs.declared.requests.Ask.TheVariants as asks;
ghost use Rattle.ak_messages.specs.declared.requests.Request.{Request};
ghost use Rattle.ak_session.specs.Answers.{counts_of};
ghost use Rattle.ak_session.specs.Asks.{asks_of, fold_of};
ghost use Rattle.ak_session.specs.Contents.{folded, answer, ends, closed};
ghost use Rattle.ak_session.specs.Plans.{device_rows, given_by_sync, sent_by_sync};
ghost use Rattle.ak_session.specs.Plans.{planned_start, planned_graves, planned_changes, planned_chunks};
ghost use Rattle.ak_session.specs.Plans.{planned_pushes, planned_check};
ghost use Rattle.ak_session.specs.Sessions.{MaySync, TellsCheck};
ghost use Rattle.ak_session.specs.Slices.{wanted_graves, wanted_changes, wanted_in_chunks};
ghost use Rattle.ak_merge.specs.declared.sides.Side.TheVariants.{Server};

/// What the server gives in a sync is its graves, then its changes, then its rows in chunks, each row once; what the
/// device sends is likewise its own that was not sent yet. Each part is of what the side holds when it gives it.
pub fn parts_of_a_sync()
    ensures given { (c s : Collection) → MaySync c s → given_by_sync c s ≡ record {
      rows = wanted_graves (From c.head.usn) s.rows
          ++ (wanted_changes (From c.head.usn) (fold_of s (planned_graves c s)).rows
          ++ wanted_in_chunks (From c.head.usn) (fold_of s (planned_changes c s)).rows);
      tags = wanted_tags (From c.head.usn) s.head.tags;
      settings = settings_given c.head s.head;
    } }
    ensures sent { (c s : Collection) → MaySync c s → sent_by_sync c s ≡ record {
      rows = wanted_graves Unsent (device_rows c s (planned_start c))
          ++ (wanted_changes Unsent (device_rows c s (planned_graves c s))
          ++ wanted_in_chunks Unsent (device_rows c s (planned_chunks c s)));
      tags = wanted_tags Unsent c.head.tags;
      settings = settings_sent c.head s.head;
    } }
{}

/// Each table's part of what a side gives ascends by id, so that no row is in it twice.
pub fn parts_ascend()
    ensures { (table : Table) (want : Wanted) (held : Rows) → AreNamed (get held)
        → AscendsPast table (pos 0) (wanted_past table want (pos 0) held) }
{}

/// The finish of a whole sync commits what the device had not sent yet, after the server gave it rows that it lacks:
/// the server's half of an exchange, after which the server holds the join.
pub fn syncs_exchange()
    ensures { (c s : Collection) (accepted : List Request) (finish : Request) (now : ℤ) → MaySync c s
        → asks_of accepted ≡ planned_check c s → finish.ask ≡ asks.Finish
        → IsServerHalf (given_by_sync c s) (sent_by_sync c s) c s (closed s accepted finish now) }
{}

/// What the device sends, and what it is given, is what an exchange asks of its half: the device sends rows that it did
/// not send yet, and is given each row and each tag that it lacks, and the settings unless it was changed last.
pub fn syncs_give_what_is_lacking()
    ensures sends { (c s : Collection) → MaySync c s
        → AreOf (wanted_under Unsent (row_under c)) (sent_by_sync c s).rows }
    ensures gives { (c s : Collection) → MaySync c s
        → IsSent (given_by_sync c s).rows (wanted_under (From c.head.usn) (row_under s))
        (get (all_taken Server s.head.usn (sent_by_sync c s).rows s.rows)) }
    ensures tags_given { (c s : Collection) (name : List ℕ) → MaySync c s
        → has_name (given_by_sync c s).tags name ≡ tags_from c.head.usn s.head.tags name }
    ensures gives_settings { (c s : Collection) → MaySync c s
        → (given_by_sync c s).settings ≡ settings_given c.head s.head }
{}

/// Before its sanity check, a sync's session holds the join of the two sides, and so does the device: each table has as
/// many rows on both. So the check is bad exactly if the join is not sound.
pub fn checks_test_the_join()
    ensures content { (c s : Collection) (accepted : List Request) → MaySync c s → asks_of accepted ≡ planned_pushes c s
        → SameContent (content_of (folded s accepted)) (join c s) }
    ensures counts { (c s : Collection) (accepted : List Request) (table : Table) → MaySync c s
        → asks_of accepted ≡ planned_pushes c s
        → row_count table (folded s accepted).rows ≡ row_count table (device_rows c s (planned_pushes c s)) }
    ensures same_counts { (c s : Collection) (accepted : List Request) → MaySync c s
        → asks_of accepted ≡ planned_pushes c s
        → counts_of (folded s accepted).rows ≡ counts_of (device_rows c s (planned_pushes c s)) }
    ensures told { (c s : Collection) (accepted : List Request) (check : Request) → MaySync c s
        → asks_of accepted ≡ planned_pushes c s
        → check.ask ≡ asks.SanityCheck2 (counts_of (device_rows c s (planned_pushes c s)))
        → (reply : SanityReply) × (answer s accepted check ≡ gives.Sanity reply)
        × TellsCheck (folded s accepted).rows (counts_of (device_rows c s (planned_pushes c s)))
        (ends s accepted check) reply }
    ensures check { (c s : Collection) (accepted : List Request) (check : Request) → MaySync c s
        → asks_of accepted ≡ planned_pushes c s
        → check.ask ≡ asks.SanityCheck2 (counts_of (device_rows c s (planned_pushes c s)))
        → (ends s accepted check ≡ false) ↔ IsSound (joined_under (row_under c) (row_under s)) }
{}
