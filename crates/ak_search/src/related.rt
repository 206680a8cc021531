// What a card belongs to: its note, its type and its deck, and the texts of the note. What was looked up last is kept.
ghost use Rattle.std.specs.Prelude.{◌≡◌, true, IfOk, OnOk, Some, None};
ghost use Rattle.std.specs.Option.{option_map};
ghost use Rattle.ak_base.specs.declared.notes.Note.{Note as Noted};
ghost use Rattle.ak_keep.specs.Collections.{Rows};
ghost use Rattle.ak_keep.specs.Lookups.{note_at, deck_of_card};
ghost use Rattle.ak_keep.specs.Readings.{ReadsBy};
ghost use Rattle.ak_search.specs.Passes.{AreLatest, AreTypesOf, HasNoteOf, HasTexts, HasTypeOf, KeepsTexts, Stays, Suits, needs_note, needs_deck, needs_texts, texts_seen};

use crate::Term;
use crate::boxed_types::BoxedType;
use crate::kept_types::KeptTypes;
use crate::texts::stripped_fields;
use ak_base::{Card, Deck, List, Memory, Note, Text};
use ak_keep::{KeepFault, Lookup, deck_of_card, note_at};
use std::alloc::Global;

/// What a card belongs to, each if it is held.
#[derive(Debug, Drop)]
pub(crate) struct Related {
    pub(crate) note: Option<Note>,
    pub(crate) note_type: Option<BoxedType>,
    /// Its deck, and deck 1 if that is not held.
    pub(crate) deck: Option<Deck>,
}

/// What was looked up last, each with the id that it was looked up by. Cards come by their ids, so neighbours often share it.
#[derive(Debug, Drop)]
pub(crate) struct Latest {
    pub(crate) nid: Option<i64>,
    pub(crate) mid: Option<i64>,
    pub(crate) did: Option<i64>,
    pub(crate) related: Related,
    /// The stripped texts of the note's fields, if a term asked for them since the note was looked up. None without a note.
    pub(crate) texts: Option<List<Text>>,
    /// The types that were looked up before.
    pub(crate) types: KeptTypes,
}

impl Latest {
    /// Before anything was looked up.
    pub(crate) fn nothing(alloc: Global) -> Latest
        ensures { (held : Rows) → AreLatest result held }
    {
        Latest {
            nid: None,
            mid: None,
            did: None,
            related: Related {
                note: None,
                note_type: None,
                deck: None,
            },
            texts: None,
            types: KeptTypes::new(alloc),
        }
    }

    /// Looks up what the term asks for of the card, but for what was looked up last.
    pub(crate) fn turn_to<R: Lookup>(
        &mut self,
        alloc: Global,
        from: &mut R,
        card: &Card,
        term: &Term,
    ) -> Result<(), KeepFault>
        ensures reads { ReadsBy R.Lookup from.old from.new result (λ h _. Stays self.old self.new h.rows (Suits self.new h.rows card.now term.now)) }
    {
        if needs_texts(term) {
            return self.turn_to_texts(alloc, from, card);
        }
        if needs_note(term) {
            return self.turn_to_note(alloc, from, card);
        }
        if needs_deck(term) {
            return self.turn_to_deck(from, card);
        }
        Ok(())
    }

    /// Looks up the note of the card and its type, and strips its fields.
    fn turn_to_texts<R: Lookup>(
        &mut self,
        alloc: Global,
        from: &mut R,
        card: &Card,
    ) -> Result<(), KeepFault>
        ensures reads { ReadsBy R.Lookup from.old from.new result (λ h _. Stays self.old self.new h.rows (HasNoteOf self.new h.rows card.now × HasTexts self.new)) }
    {
        self.turn_to_note(alloc, from, card)?;
        self.strip_fields(alloc)?;
        Ok(())
    }

    /// Strips the fields of the note that was looked up last, unless that was done.
    fn strip_fields(&mut self, alloc: Global) -> Result<(), Memory>
        ensures same { self.new ≡ record self.old { texts = self.new.texts } }
        ensures texts { OnOk result (KeepsTexts self.old → HasTexts self.new) }
    {
        if self.texts.is_some() {
            return Ok(());
        }
        let texts = stripped_texts(alloc, &self.related)?;
        self.texts = texts;
        Ok(())
    }

    /// Looks up the note of the card and its type.
    fn turn_to_note<R: Lookup>(
        &mut self,
        alloc: Global,
        from: &mut R,
        card: &Card,
    ) -> Result<(), KeepFault>
        ensures reads { ReadsBy R.Lookup from.old from.new result (λ h _. Stays self.old self.new h.rows (HasNoteOf self.new h.rows card.now)) }
    {
        self.look_up_note(from, card.nid)?;
        self.look_up_type(alloc, from)
    }

    /// Looks up the note of that id.
    fn look_up_note<R: Lookup>(&mut self, from: &mut R, id: i64) -> Result<(), KeepFault>
        ensures reads { ReadsBy R.Lookup from.old from.new result (λ h _. Stays self.old self.new h.rows (self.new.related.note ≡ note_at h.rows id)) }
    {
        if is_by(self.nid, id) {
            return Ok(());
        }
        let note = note_at(from, id)?;
        self.related.note = note;
        self.texts = None;
        self.nid = Some(id);
        Ok(())
    }

    /// Looks up the type of the note that was looked up last.
    fn look_up_type<R: Lookup>(&mut self, alloc: Global, from: &mut R) -> Result<(), KeepFault>
        ensures reads { ReadsBy R.Lookup from.old from.new result (λ h _. Stays self.old self.new h.rows (HasTypeOf self.old self.new h.rows)) }
    {
        match type_id(&self.related.note) {
            Some(id) => self.look_up_type_at(alloc, from, id),
            None => {
                self.related.note_type = None;
                self.texts = None;
                self.mid = None;
                Ok(())
            }
        }
    }

    /// The same by the id of the type.
    fn look_up_type_at<R: Lookup>(
        &mut self,
        alloc: Global,
        from: &mut R,
        id: i64,
    ) -> Result<(), KeepFault>
        requires { option_map (λ (n : Noted). n.mid) self.old.related.note ≡ Some id }
        ensures reads { ReadsBy R.Lookup from.old from.new result (λ h _. Stays self.old self.new h.rows (HasTypeOf self.old self.new h.rows)) }
    {
        if is_by(self.mid, id) {
            return Ok(());
        }
        self.keep_type()?;
        let note_type = self.types.take(alloc, from, id)?;
        self.related.note_type = note_type;
        self.texts = None;
        self.mid = Some(id);
        Ok(())
    }

    /// Puts the type that was looked up last to those that were looked up before.
    fn keep_type(&mut self) -> Result<(), Memory>
        ensures same { self.new ≡ record self.old { mid = None; related = record self.old.related { note_type = None }; types = self.new.types } }
        ensures types { OnOk result ((held : Rows) → AreLatest self.old held → AreTypesOf self.new.types held) }
    {
        let note_type = self.related.note_type.take();
        match self.mid.take() {
            Some(id) => self.types.keep(id, note_type),
            None => {
                drop(note_type);
                Ok(())
            }
        }
    }

    /// Looks up the deck of the card.
    fn turn_to_deck<R: Lookup>(&mut self, from: &mut R, card: &Card) -> Result<(), KeepFault>
        ensures reads { ReadsBy R.Lookup from.old from.new result (λ h _. Stays self.old self.new h.rows (self.new.related.deck ≡ deck_of_card h.rows card.now)) }
    {
        if is_by(self.did, card.did) {
            return Ok(());
        }
        let deck = deck_of_card(from, card)?;
        self.related.deck = deck;
        self.did = Some(card.did);
        Ok(())
    }
}

/// Whether the row was looked up by that id.
fn is_by(latest: Option<i64>, id: i64) -> bool
    ensures { result ≡ true → latest ≡ Some id }
{
    match latest {
        Some(own) => own == id,
        None => false,
    }
}

/// The id of the note's type, if there is a note.
fn type_id(note: &Option<Note>) -> Option<i64>
    ensures { result ≡ option_map (λ (n : Noted). n.mid) note.now }
{
    match note {
        Some(note) => Some(note.mid),
        None => None,
    }
}

/// The stripped texts of the note's fields, if there is a note.
fn stripped_texts(alloc: Global, related: &Related) -> Result<Option<List<Text>>, Memory>
    ensures { IfOk result (λ texts. texts ≡ option_map (texts_seen related.now.note_type) related.now.note) }
{
    match &related.note {
        Some(note) => {
            let texts = stripped_fields(alloc, note, &related.note_type)?;
            Ok(Some(texts))
        }
        None => Ok(None),
    }
}

/// Whether a term asks for the texts of a note's fields.
fn needs_texts(term: &Term) -> bool
    ensures { result ≡ needs_texts term.now }
{
    match term {
        Term::Contains(_) => true,
        Term::Word(_) => true,
        Term::Field(_, _) => true,
        _ => false,
    }
}

/// Whether a term asks for the note of a card, and for its type.
pub(crate) fn needs_note(term: &Term) -> bool
    ensures { result ≡ needs_note term.now }
{
    match term {
        Term::Contains(_) => true,
        Term::Word(_) => true,
        Term::Field(_, _) => true,
        Term::Tag(_) => true,
        Term::Untagged => true,
        Term::NoteType(_) => true,
        Term::Template(_) => true,
        Term::Edited(_) => true,
        _ => false,
    }
}

/// Whether a term asks for the deck of a card.
pub(crate) fn needs_deck(term: &Term) -> bool
    ensures { result ≡ needs_deck term.now }
{
    match term {
        Term::Deck(_) => true,
        _ => false,
    }
}
