ghost use Rattle.std.specs.Option.{option_map, unwrap_or};
ghost use Rattle.std.specs.Prelude.{◌≡◌, ◌≢◌, pos, true, Some, Err, IfOk};
ghost use Rattle.ak_base.specs.Heads.{IsHeadInRange, IsWithin};
ghost use Rattle.ak_base.specs.Limits.{last_head_usn};
ghost use Rattle.ak_keep.specs.HeadNumbers.{AreNumbersInRange, numbers_of};
ghost use Rattle.ak_keep.specs.Keepers.{IsNamedRightly};
ghost use Rattle.ak_keep.specs.Readings.{ReadsBy};
ghost use Rattle.ak_keep.specs.declared.keepers.KeepFault.TheVariants.{Memory as WantOfMemory};
ghost use Rattle.ak_merge.specs.Commits.{settings_of};
ghost use Rattle.ak_session.specs.Messages.{newer_of, settings_in};
ghost use Rattle.ak_sync_rows.specs.Takes.{MayBeTaken, head_with, received_in};

use ak_base::{Conf, Head, Memory};
use ak_keep::{KeepFault, Keeper, Numbers};
use ak_merge::take_tags;
use ak_messages::{Changes, Newer};

/// The head of the collection that is held.
pub fn head_of<K: Keeper>(keeper: &mut K) -> Result<Head, KeepFault>
    requires held { (K.keeping keeper.old).headed.current ≡ true }
    ensures reads { ReadsBy K.Lookup keeper.old keeper.new result (λ h head. h.head ≡ Some head) }
    ensures range { IfOk result IsHeadInRange }
    ensures known { IsNamedRightly (K.keeping keeper.old) }
{
    // For the proof alone: the one says that what the keeper gives is in range, the other that what it tells is rightly named.
    let _checks = keeper.marked();
    let _known = keeper.held();
    let Some(head) = keeper.head()? else {
        unreachable!();
    };
    Ok(head)
}

/// The numbers of the head of the collection that is held.
pub fn held_numbers<K: Keeper>(keeper: &mut K) -> Result<Numbers, KeepFault>
    requires held { (K.keeping keeper.old).headed.current ≡ true }
    ensures reads { ReadsBy K.Lookup keeper.old keeper.new result (λ h numbers. option_map numbers_of h.head ≡ Some numbers) }
    ensures range { IfOk result AreNumbersInRange }
    ensures known { IsNamedRightly (K.keeping keeper.old) }
    ensures spares { K.spares_memory ≡ true → result ≢ Err WantOfMemory }
{
    // For the proof alone: it says that what the keeper tells is rightly named.
    let _known = keeper.held();
    let Some(numbers) = keeper.numbers()? else {
        unreachable!();
    };
    Ok(numbers)
}

/// The settings of a head, as changes bring them.
pub fn newer_of(head: &Head) -> Result<Newer, Memory>
    ensures { IfOk result (λ newer. newer ≡ newer_of (settings_of head.now)) }
{
    Ok(Newer {
        conf: head.conf.copy()?,
        crt: head.crt,
    })
}

/// The head once the tags and settings of these changes are taken, with one usn.
pub(crate) fn head_with(head: Head, came: &Changes, usn: i64) -> Result<Head, Memory>
    requires range { IsHeadInRange head }
    requires taken { MayBeTaken (received_in came.now) }
    requires usn { IsWithin (pos 0) last_head_usn usn }
    ensures ok { IfOk result (λ made. made ≡ head_with usn (received_in came.now) head) }
    ensures range { IfOk result IsHeadInRange }
{
    let Head {
        crt,
        moment,
        schema,
        usn: own,
        last_sync,
        conf,
        tags,
    } = head;
    let tags = take_tags(tags, came.tags.as_slice(), usn)?;
    let (conf, crt) = settings_after(&came.newer, conf, crt)?;
    Ok(Head {
        crt,
        moment,
        schema,
        usn: own,
        last_sync,
        conf,
        tags,
    })
}

/// The settings that came, or else the held ones.
fn settings_after(newer: &Option<Newer>, conf: Conf, crt: i64) -> Result<(Conf, i64), Memory>
    ensures conf { IfOk result (λ made. made.0 ≡ (unwrap_or (option_map settings_in newer.now) (record { conf = conf; crt = crt })).conf) }
    ensures crt { IfOk result (λ made. made.1 ≡ (unwrap_or (option_map settings_in newer.now) (record { conf = conf; crt = crt })).crt) }
{
    match newer {
        Some(newer) => Ok((newer.conf.copy()?, newer.crt)),
        None => Ok((conf, crt)),
    }
}
