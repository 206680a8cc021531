// What holds once a sync ended: of a sync that was lost at its finish, and of the next one.
ghost use Rattle.std.specs.List.{AllByRecursion};
ghost use Rattle.std.specs.Prelude.{◌≡◌, ◌≢◌, ◌<ℤ◌, ℤ, List};
ghost use Rattle.ak_base.specs.Limits.{last_moment};
ghost use Rattle.ak_base.specs.declared.heads.Head.{Head};
ghost use Rattle.ak_client.specs.Syncs.{IsSyncFinished, MayBegin, world_at};
ghost use Rattle.ak_device.specs.Devices.{advanced_moment};
ghost use Rattle.ak_keep.specs.Collections.{Collection};
ghost use Rattle.ak_keep.specs.Keepers.{Keeping};
ghost use Rattle.ak_merge.specs.Exchanges.{AreExchanged, HoldsJoin};
ghost use Rattle.ak_merge.specs.Holdings.{SameContent, content_of};
ghost use Rattle.ak_merge.specs.Joins.{join};
ghost use Rattle.ak_protocol.specs.Accounts.{AccountState};
ghost use Rattle.ak_protocol.specs.Commits.{EachNewer, HasFreshSchema};
ghost use Rattle.ak_protocol.specs.Logs.{Event, Log, IsTimely, with_growth};
ghost use Rattle.ak_protocol.specs.Syncs.{IsUnused};
ghost use Rattle.ak_session.specs.Plans.{Asker};

/// If the reply to a finish was lost, the server holds the join and the device is as before. Its next
/// finished sync, if nobody changed either side meanwhile, leaves both with that same join: what was joined is joined once.
pub fn lost_finishes_heal()
    ensures device { (c s t d u : Collection) → HoldsJoin c s t → AreExchanged c t d u
        → SameContent (content_of d) (join c s) }
    ensures server { (c s t d u : Collection) → HoldsJoin c s t → AreExchanged c t d u
        → SameContent (content_of u) (join c s) }
{}

/// After a sync the next one may begin, with a session key that nothing but metas bears: with the device as it was, if it is not
/// finished; with what a finished one left; and after a bad sanity check with a device whose schema moment is not
/// that of what is committed. So it is not, if that is still the device's old one and this was not the last moment.
pub fn syncs_may_go_on()
    ensures unfinished { (who next : Asker) (c : Collection) (account : AccountState) (old : Log) (growth : List Event)
        → MayBegin who c account old → AllByRecursion IsTimely growth → next.host ≡ who.host
        → EachNewer (HasFreshSchema c) (world_at who account old) (world_at who account (with_growth old growth))
        → IsUnused next.host.digits next.session.0 account (with_growth old growth)
        → MayBegin next c account (with_growth old growth) }
    ensures finished { (who next : Asker) (c base : Collection) (account : AccountState) (old : Log)
        → (growth : List Event) (left : Keeping) → MayBegin who c account old → AllByRecursion IsTimely growth → next.host ≡ who.host
        → IsUnused next.host.digits next.session.0 account (with_growth old growth)
        → (it : IsSyncFinished who c base account (with_growth old growth) left)
        → MayBegin next it.device account (with_growth old growth) }
    ensures parted { (who next : Asker) (c : Collection) (head : Head) (account : AccountState) (old : Log)
        → (growth : List Event) → MayBegin who c account old → AllByRecursion IsTimely growth → next.host ≡ who.host
        → IsUnused next.host.digits next.session.0 account (with_growth old growth)
        → head.schema ≢ (world_at who account (with_growth old growth)).state.committed.head.schema
        → MayBegin next (record c { head = head }) account (with_growth old growth) }
    ensures raised { (at schema : ℤ) → schema <ℤ last_moment → advanced_moment at schema ≢ schema }
{}
