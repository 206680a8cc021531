// What a device and a server hold once each took what the other gave.
ghost use Rattle.ak_keep.specs.Collections.{Collection};
ghost use Rattle.std.specs.Prelude.{◌≡◌, ℤ, pos, ◌≤ℤ◌, List, IsTrue};
ghost use Rattle.std.specs.FinMap.{get};
ghost use Rattle.std.specs.Option.{option_map};
ghost use Rattle.ak_base.specs.declared.names.Name.{Name};
ghost use Rattle.ak_base.specs.declared.rows.Row.{Row};
ghost use Rattle.ak_merge.specs.Commits.{Received};
ghost use Rattle.ak_merge.specs.Exchanges.{settled, MayExchange, ComesToServer, ComesToDevice, IsServerHalf, IsDeviceHalf, HoldsJoin, IsExchange, AreExchanged};
ghost use Rattle.ak_keep.specs.Graves.{RowsByName};
ghost use Rattle.ak_merge.specs.Holdings.{row_under, AreNamed, content_of, same_held, SameContent};
ghost use Rattle.ak_merge.specs.Joins.{joined_under, join};
ghost use Rattle.ak_merge.specs.Links.{AreLinkedParts};
ghost use Rattle.ak_merge.specs.Takings.{all_taken};
ghost use Rattle.ak_merge.specs.declared.sides.Side.TheVariants.{Device, Server};

/// What a server holds under each name once it took what a linked device sent is the join's, before any
/// commit. What came to the device before it sent is any of what the server has for it.
pub fn server_rows_join()
    ensures { (usn : ℤ) (got sent : List Row) (c s : Collection) → ComesToServer usn got sent c s
        → (name : Name) → IsTrue (same_held (get (all_taken Server usn sent s.rows) name) (joined_under (row_under c) (row_under s) name)) }
{}

/// What a device holds under each name once it took what came from a server with which it is linked is the
/// join's, before and after it settles. What was sent to the server before is any of what the device has for it.
/// It keeps a grave that the server holds too: the two are one if both are in their ranges.
pub fn device_rows_join()
    ensures taken { (usn : ℤ) (got sent : List Row) (c s : Collection) → ComesToDevice usn got sent c s
        → (name : Name) → IsTrue (same_held (get (all_taken Device usn got c.rows) name) (joined_under (row_under c) (row_under s) name)) }
    ensures settled { (usn : ℤ) (got sent : List Row) (c s : Collection) (now : RowsByName) → ComesToDevice usn got sent c s
        → ((name : Name) → now name ≡ option_map (settled usn) (get (all_taken Device usn got c.rows) name))
        → (name : Name) → IsTrue (same_held (now name) (joined_under (row_under c) (row_under s) name)) }
{}

/// The server's half of an exchange alone, as after a sync whose last reply is lost: the server holds the join,
/// numbered as a server's is, and was changed after both.
pub fn server_half_joins()
    ensures { (got sent : Received) (c s t : Collection) → IsServerHalf got sent c s t
        → AreLinkedParts c s → AreNamed (row_under c) → AreNamed (row_under s) → pos 0 ≤ℤ s.head.usn → HoldsJoin c s t }
{}

/// The device's half alone: the device has the content of the join.
pub fn device_half_joins()
    ensures { (got sent : Received) (c s d t : Collection) → IsDeviceHalf got sent c s d t → MayExchange c s
        → SameContent (content_of d) (join c s) }
{}

/// The device's half after a server's commit that holds the join: the two are linked and have one content, and
/// the device's last sync is at the moment of that commit.
pub fn device_half_links()
    ensures { (got sent : Received) (c s d t : Collection) → IsDeviceHalf got sent c s d t → HoldsJoin c s t
        → MayExchange c s → pos 0 ≤ℤ s.head.usn → AreExchanged c s d t }
{}

/// If a device that was linked and a server have given each other what the other lacked, they are linked
/// again and hold the join of what they had, each.
pub fn exchange_links()
    ensures { (got sent : Received) (c s d t : Collection) → IsExchange got sent c s d t
        → MayExchange c s → pos 0 ≤ℤ s.head.usn → AreExchanged c s d t }
{}
