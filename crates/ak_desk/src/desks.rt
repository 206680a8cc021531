ghost use Rattle.std.specs.Prelude.{◌≡◌};
ghost use Rattle.ak_desk.specs.Desks.{IsIdle};

use ak_keep::Keeper;
use ak_undo::UndoList;

/// A collection at which a learner works, and the steps that can be undone. Each call at it is one edit, which leaves
/// its step, or a reading. It needs a keeper that is not marked and holds a head, and leaves it so.
#[derive(Drop)]
pub struct Desk<'a, K: Keeper> {
    pub keeper: &'a mut K,
    pub undo: &'a mut UndoList,
}

impl<'a, K: Keeper> Desk<'a, K> {
    /// A desk over a keeper and an undo list. It takes no memory.
    pub fn over(keeper: &'a mut K, undo: &'a mut UndoList) -> Desk<'a, K>
        requires idle { IsIdle (K.keeping keeper.old) }
        ensures keeper { result.keeper.now ≡ keeper.old }
        ensures undo { result.undo.now ≡ undo.old }

        // What the desk's calls leave is what the two references end as.
        ensures lends_keeper { result.keeper.ghost_name ≡ keeper.entry.ghost_name }
        ensures lends_undo { result.undo.ghost_name ≡ undo.entry.ghost_name }
    {
        Desk { keeper, undo }
    }
}
