ghost use Rattle.std.specs.Prelude.{◌≡◌, OnOk};
ghost use Rattle.std.specs.List.{AllByRecursion};
ghost use Rattle.ak_base.specs.Heads.{IsConfInRange};
ghost use Rattle.ak_merge.specs.Tags.{IsTagName};
ghost use Rattle.ak_notes.specs.MadeNotes.{cards_over, made_over, tags_over};

use ak_base::{Card, Conf, List, Memory, Note, Row, Text};
use ak_edit::Change;

/// What a call makes of a note: the note, its new cards by ord, and the settings after them.
#[derive(Drop)]
pub struct MadeNote {
    pub note: Note,
    pub cards: List<Card>,
    pub conf: Conf,
}

/// Puts the note, its new cards and the settings, and adds the tags.
pub fn put_made(change: &mut Change, made: MadeNote, tags: &List<Text>) -> Result<(), Memory>
    requires range { IsConfInRange made.conf }
    requires names { AllByRecursion IsTagName tags.now }
    ensures { OnOk result (change.new ≡ made_over tags.now made change.old) }
{
    let MadeNote { note, cards, conf } = made;
    change.put(Row::Note(note))?;
    put_cards(change, cards.into_vec())?;
    change.set_conf(conf);
    add_tags(change, tags.as_slice())
}

/// Puts each of the cards under its name.
pub fn put_cards(change: &mut Change, cards: Vec<Card>) -> Result<(), Memory>
    ensures { OnOk result (change.new ≡ cards_over cards.items change.old) }
{
    for card in cards {
        change.put(Row::Card(card))?;
    }
    Ok(())
}

/// Adds each of the tags.
fn add_tags(change: &mut Change, tags: &[Text]) -> Result<(), Memory>
    requires { AllByRecursion IsTagName tags.now }
    ensures { OnOk result (change.new ≡ tags_over tags.now change.old) }
{
    for tag in tags {
        change.add_tag(tag.copy()?)?;
    }
    Ok(())
}
