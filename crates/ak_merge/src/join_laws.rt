// What holds of the join of any two collections.
ghost use Rattle.ak_keep.specs.Collections.{Collection, Rows};
ghost use Rattle.std.specs.Prelude.{◌≡◌, ◌≢◌, ℤ, ◌<ℤ◌, ◌≤ℤ◌, List, IsTrue};
ghost use Rattle.std.specs.FinMap.{get};
ghost use Rattle.ak_base.specs.declared.names.Name.{Name};
ghost use Rattle.ak_base.specs.declared.rows.Row.{Row};
ghost use Rattle.ak_merge.specs.Holdings.{row_under, AreNamed, AreChecked, IsSingle, content_of, same_held, SameContent};
ghost use Rattle.ak_merge.specs.Joins.{AreApart, joined_under, join};
ghost use Rattle.ak_merge.specs.Takings.{IsListOf, all_taken};
ghost use Rattle.ak_merge.specs.declared.sides.Side.TheVariants.{Device, Server};

/// Which side comes first makes no difference, if no two rows of one name and stamp differ and the
/// sides were not changed last at the same moment.
#[tactic(auto, using(crate::proofs::JoinLaws::join_commutes))]
pub fn join_commutes()
    ensures { (a b : Collection) → AreApart (row_under a) (row_under b) → a.head.moment ≢ b.head.moment → SameContent (join a b) (join b a) }
{}

/// A side that has the content of the join already, and changed last, keeps it: joining it again
/// changes nothing.
#[tactic(auto, using(crate::proofs::JoinLaws::join_once))]
pub fn join_once()
    ensures { (a b j : Collection) → SameContent (content_of j) (join a b) → a.head.moment <ℤ j.head.moment → SameContent (join a j) (content_of j) }
{}

/// The settings of the join are those of the side that was changed last, and the second's if both were changed at one
/// moment.
pub fn last_settings_stand()
    ensures first { (a b : Collection) → b.head.moment <ℤ a.head.moment → ((join a b).conf ≡ a.head.conf) × ((join a b).crt ≡ a.head.crt) }
    ensures second { (a b : Collection) → a.head.moment ≤ℤ b.head.moment → ((join a b).conf ≡ b.head.conf) × ((join a b).crt ≡ b.head.crt) }
{}

/// What a side holds under each name once it has taken all rows of the other, in any order, is the join of the device's
/// and the server's: a server that takes the device's rows, and a device that takes the server's. Two graves of one
/// name are one grave only if both are in their ranges, and the device keeps its own.
pub fn taking_joins()
    ensures server { (usn : ℤ) (came : List Row) (c s : Rows) → IsListOf came (get c) → AreNamed (get c) → IsSingle (get s) → (name : Name) → IsTrue (same_held (get (all_taken Server usn came s) name) (joined_under (get c) (get s) name)) }
    ensures device { (usn : ℤ) (came : List Row) (c s : Rows) → IsListOf came (get s) → AreNamed (get c) → AreNamed (get s) → AreChecked (get c) → AreChecked (get s) → IsSingle (get c) → (name : Name) → IsTrue (same_held (get (all_taken Device usn came c) name) (joined_under (get c) (get s) name)) }
{}
