ghost use Rattle.std.specs.Prelude.{◌≡◌};
ghost use Rattle.std.specs.Option.{option_map};
ghost use Rattle.std.specs.BTreeSet.{contains_text};
ghost use Rattle.ak_keep.specs.Readings.{ReadsBy};
ghost use Rattle.ak_note_files.specs.Rules.{AreRulesFor, field_count};

use crate::guids::{guids_of_others, set_of};
use crate::places::ImportPlace;
use ak_csv::RecordRules;
use ak_keep::{KeepFault, Readable, note_type_at};
use std::alloc::Global;

/// What records that go there are tested by.
pub(crate) fn record_rules<R: Readable>(
    alloc: Global,
    from: &mut R,
    place: &ImportPlace,
) -> Result<RecordRules, KeepFault>
    ensures reads { ReadsBy R.Lookup from.old from.new result (λ h rules. AreRulesFor place.now.note_type h.rows rules.fields (contains_text rules.others)) }
{
    let fields = field_count(from, place.note_type)?;
    let own = own_type(&fields, place.note_type);
    let guids = guids_of_others(alloc, from, &own)?;
    let others = set_of(alloc, guids.as_slice())?;
    Ok(RecordRules { fields, others })
}

/// The type's id, if it is held, as its number of fields tells.
fn own_type(fields: &Option<u64>, note_type: i64) -> Option<i64>
    ensures { result ≡ option_map (λ count. note_type) fields.now }
{
    match fields {
        Some(_) => Some(note_type),
        None => None,
    }
}

/// How many fields a note of the type has; None if the type is not held.
pub(crate) fn field_count<R: Readable>(
    from: &mut R,
    note_type: i64,
) -> Result<Option<u64>, KeepFault>
    ensures reads { ReadsBy R.Lookup from.old from.new result (λ h count. count ≡ field_count note_type h.rows) }
{
    match note_type_at(from, note_type)? {
        Some(note_type) => Ok(Some(note_type.fields.as_slice().len() as u64)),
        None => Ok(None),
    }
}
