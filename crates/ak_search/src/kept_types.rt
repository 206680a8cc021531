// The types that a search looked up before. Notes of a few types take turns, and each type is copied once.
ghost use Rattle.std.specs.Prelude.{◌≡◌, OnOk};
ghost use Rattle.ak_keep.specs.Collections.{Rows};
ghost use Rattle.ak_keep.specs.Lookups.{note_type_at};
ghost use Rattle.ak_keep.specs.Readings.{ReadsBy};
ghost use Rattle.ak_search.specs.Passes.{AreTypesOf};

use crate::boxed_types::{BoxedType, boxed_type_at};
use ak_base::Memory;
use ak_keep::{KeepFault, Lookup};
use std::alloc::Global;
use std::collections::BTreeMap;

/// Types by the ids that they were looked up by, each if it is held.
#[derive(Debug, Drop)]
pub(crate) struct KeptTypes {
    pub(crate) by_id: BTreeMap<i64, Option<BoxedType>>,
}

impl KeptTypes {
    /// No types.
    pub(crate) fn new(alloc: Global) -> KeptTypes
        ensures { (held : Rows) → AreTypesOf result held }
    {
        KeptTypes {
            by_id: BTreeMap::new(alloc),
        }
    }

    /// Keeps the type that was looked up by this id.
    pub(crate) fn keep(&mut self, id: i64, note_type: Option<BoxedType>) -> Result<(), Memory>
        ensures { OnOk result ((held : Rows) → note_type ≡ note_type_at held id → AreTypesOf self.old held → AreTypesOf self.new held) }
    {
        self.by_id.insert(id, note_type)?;
        Ok(())
    }

    /// Takes out the type of this id. If it is not kept, it is looked up.
    pub(crate) fn take<R: Lookup>(
        &mut self,
        alloc: Global,
        from: &mut R,
        id: i64,
    ) -> Result<Option<BoxedType>, KeepFault>
        ensures reads { ReadsBy R.Lookup from.old from.new result (λ h note_type. AreTypesOf self.old h.rows → AreTypesOf self.new h.rows × (note_type ≡ note_type_at h.rows id)) }
    {
        match self.by_id.remove(&id) {
            Some(note_type) => Ok(note_type),
            None => boxed_type_at(alloc, from, id),
        }
    }
}
