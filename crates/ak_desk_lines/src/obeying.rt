ghost use Rattle.std.specs.Prelude.{◌≡◌, map};
ghost use Rattle.ak_desk.specs.Desks.{IsIdle};
ghost use Rattle.ak_desk_language.specs.DeskLines.{IsInRange};
ghost use Rattle.ak_desk_lines.specs.LineEnds.{AppliesFilters, EndsAt, counted};
ghost use Rattle.ak_edit.specs.Refusals.{DeskCause};
ghost use Rattle.ak_study.specs.DayStarts.{IsInDay};

use crate::asking_lines::{answer_card, ask_counts, ask_next};
use crate::card_lines::{bury, flag, suspend, unsuspend};
use crate::collection_lines::{check_all, undo_latest};
use crate::deck_lines::{add_deck, delete_deck, move_cards, rename_deck, use_options};
use crate::note_lines::{add_note, delete_notes, set_fields, set_tags};
use crate::option_lines::{add_options, delete_options, set_options, set_spread};
use crate::turns::Turn;
use crate::type_lines::{add_type, delete_type, edit_type};
use crate::view_lines::{find_cards, mute_filter, show_page};
use ak_desk::Desk;
use ak_desk_language::DeskLine;
use ak_desk_texts::DeskAnswer;
use ak_edit::DeskFault;
use ak_filters::FieldFilter;
use ak_keep::Keeper;
use ak_types::TypeEdit;

/// Does what a line says at a desk, and gives its answer. A line that is refused leaves the collection and the undo list
/// as they were, but that `next` and `counts` may have started the day; a page leaves the filters with the turns that
/// they took, and `mute` leaves one filter less.
pub fn obey<K: Keeper>(
    desk: &mut Desk<K>,
    line: DeskLine,
    turn: Turn,
    filters: &mut Vec<Box<dyn FieldFilter>>,
) -> Result<DeskAnswer, DeskFault>
    requires idle { IsIdle (K.keeping desk.old.keeper.now) }
    requires moment { IsInDay turn.at }
    requires range { IsInRange line }

    // What the line leaves and is answered, or why it is refused.
    ensures ends { EndsAt K.Lookup line turn desk.old desk.new result }

    // A page applies the filters, `mute` drops one, other lines do nothing with them.
    ensures filters { AppliesFilters line (K.keeping desk.old.keeper.now)
        (map (λ b. meaning b) filters.old.items) (map (λ b. meaning b) filters.new.items) result }
    ensures cause { DeskCause (K.health desk.old.keeper.now) (K.health desk.new.keeper.now) result }
    ensures lent { (desk.new.keeper.ghost_name ≡ desk.old.keeper.ghost_name)
        × (desk.new.undo.ghost_name ≡ desk.old.undo.ghost_name) }
{
    match line {
        DeskLine::AddNote {
            note_type,
            deck,
            fields,
        } => add_note(desk, note_type, deck, fields, turn),
        DeskLine::SetFields { note, fields } => set_fields(desk, note, fields, turn),
        DeskLine::SetTags { note, tags } => set_tags(desk, note, tags, turn),
        DeskLine::DeleteNotes(notes) => delete_notes(desk, &notes, turn),
        DeskLine::DeleteDeck(deck) => delete_deck(desk, deck, turn),
        DeskLine::RenameDeck { deck, name } => rename_deck(desk, deck, &name, turn),
        DeskLine::MoveCards { deck, cards } => move_cards(desk, deck, &cards, turn),
        DeskLine::UseOptions { deck, options } => use_options(desk, deck, options, turn),
        DeskLine::SetSpread(spread) => set_spread(desk, spread, turn),
        DeskLine::AddDeck(name) => add_deck(desk, &name, turn),
        DeskLine::AddOptions(options) => add_options(desk, options, turn),
        DeskLine::SetOptions(options) => set_options(desk, options, turn),
        DeskLine::DeleteOptions { allow, options } => delete_options(desk, options, allow, turn),
        DeskLine::AddType(note_type) => add_type(desk, note_type, turn),
        DeskLine::EditType {
            allow,
            note_type,
            fields,
            templates,
        } => {
            let given = TypeEdit {
                note_type,
                from_fields: fields,
                from_templates: templates,
                allow,
            };
            edit_type(desk, &given, turn)
        }
        DeskLine::DeleteType { allow, note_type } => delete_type(desk, note_type, allow, turn),
        DeskLine::Answer {
            card,
            button,
            taken,
        } => answer_card(desk, card, button, taken, turn),
        DeskLine::Next(deck) => ask_next(desk, deck, turn),
        DeskLine::Counts(deck) => ask_counts(desk, deck, turn),
        DeskLine::Find(search) => find_cards(desk, &search, turn),
        DeskLine::Page { card, back } => show_page(desk, card, back, filters, turn),
        DeskLine::Mute(filter) => mute_filter(desk, filter, filters, turn),
        DeskLine::Suspend(cards) => suspend(desk, &cards, turn),
        DeskLine::Unsuspend(cards) => unsuspend(desk, &cards, turn),
        DeskLine::Bury(cards) => bury(desk, &cards, turn),
        DeskLine::Flag { value, cards } => flag(desk, value, &cards, turn),
        DeskLine::Undo => undo_latest(desk, turn),
        DeskLine::Check => check_all(desk, turn),
    }
}

/// How many answers were accepted in a run after this answer to a line, if it was `done` before.
pub fn counted(answer: &DeskAnswer, done: u64) -> u64
    ensures { result ≡ counted answer.now done }
{
    match answer {
        DeskAnswer::Answered { .. } => done.saturating_add(1),
        _ => done,
    }
}
