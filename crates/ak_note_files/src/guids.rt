ghost use Rattle.std.specs.Prelude.{◌≡◌, ◌++◌, ◌||◌, ◌∷◌, [], ℕ, List, IfOk, OnOk, string_bytes};
ghost use Rattle.std.specs.BTreeSet.{contains_text};
ghost use Rattle.std.specs.List.{filter_map};
ghost use Rattle.ak_keep.specs.Readings.{ReadsBy};
ghost use Rattle.ak_note_files.specs.Rules.{guid_of_other, guids_of_others, is_among, is_own};

use ak_base::{List, Memory, Row, Table, Text};
use ak_keep::{KeepFault, Readable, Walk};
use std::alloc::Global;
use std::collections::BTreeSet;

/// The guids of the notes of other types than this one, by ascending ids of the notes; of all notes if it is None.
pub(crate) fn guids_of_others<R: Readable>(
    alloc: Global,
    from: &mut R,
    own: &Option<i64>,
) -> Result<List<Text>, KeepFault>
    ensures reads { ReadsBy R.Lookup from.old from.new result (λ h guids. guids ≡ guids_of_others own.now h.rows) }
{
    let mut guids = List::new(alloc);
    let mut walk = Walk::over(Table::Note);
    'pages: while !walk.is_done() {
        let page = walk.next(from)?;
        take_rows(page.as_slice(), own, &mut guids)?;
    }
    Ok(guids)
}

/// Adds the guids of the notes of other types among the rows.
fn take_rows(rows: &[Row], own: &Option<i64>, guids: &mut List<Text>) -> Result<(), Memory>
    ensures { OnOk result (guids.new ≡ guids.old ++ filter_map (guid_of_other own.now) rows.now) }
{
    let mut rest = rows;
    while let Some((row, others)) = rest.split_first() {
        take_row(row, own, guids)?;
        rest = others;
    }
    Ok(())
}

/// Adds the row's guid, if it is a note of another type.
fn take_row(row: &Row, own: &Option<i64>, guids: &mut List<Text>) -> Result<(), Memory>
    ensures { OnOk result (guids.new ≡ guids.old ++ filter_map (guid_of_other own.now) (row.now ∷ [])) }
{
    match row {
        Row::Note(note) if !is_own(own, note.mid) => {
            let guid = note.guid.copy()?;
            guids.push(guid)
        },
        _ => Ok(()),
    }
}

/// Whether notes of this type are the type's own.
fn is_own(own: &Option<i64>, note_type: i64) -> bool
    ensures { result ≡ is_own own.now note_type }
{
    match own {
        Some(own) => note_type == *own,
        None => false,
    }
}

/// The texts as a set.
pub(crate) fn set_of(alloc: Global, texts: &[Text]) -> Result<BTreeSet<String>, Memory>
    ensures { IfOk result (λ set. (text : List ℕ) → contains_text set text ≡ is_among text texts.now) }
{
    let mut set = BTreeSet::new(alloc);
    let mut rest = texts;
    while let Some((text, others)) = rest.split_first() {
        add_text(alloc, &mut set, text)?;
        rest = others;
    }
    Ok(set)
}

/// Adds the text.
fn add_text(alloc: Global, set: &mut BTreeSet<String>, text: &Text) -> Result<(), Memory>
    ensures { OnOk result ((other : List ℕ) → contains_text set.new other
        ≡ contains_text set.old other || is_among other (text.now ∷ [])) }
{
    let text = String::from_str(alloc, text.as_str())?;
    set.insert(text)?;
    Ok(())
}
