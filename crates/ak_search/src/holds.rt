// Whether a term holds of a card and what it belongs to.
ghost use Rattle.std.specs.Prelude.{◌≡◌, ◌||◌, [], ◌∷◌, pos, slice_get, Some, None, IfOk, IfSome, IfNone};
ghost use Rattle.std.specs.List.{list_any};
ghost use Rattle.ak_base.specs.declared.decks.Deck.{Deck as Kept};
ghost use Rattle.ak_search.specs.Holds.{held_and, passes, path_matches, has_tag, is_untagged, is_type, is_edited, is_place, is_template, answered_since, id_back};
ghost use Rattle.ak_search.specs.CardFacts.{template_at};
ghost use Rattle.ak_search.specs.Passes.{field_passes, holds_by, is_shown};
ghost use Rattle.ak_search.specs.Patterns.{matches};

use crate::answers::Answers;
use crate::boxed_types::BoxedType;
use crate::patterns::are_letters;
use crate::related::Latest;
use crate::states::{id_back, is_since, second_back};
use crate::texts::{
    MatchMode, is_untagged, named_text_matches, path_matches, some_tag_matches, some_text_passes,
};
use crate::{PatternItem, Term, matches};
use ak_base::{Card, CardTemplate, Day, Deck, List, Memory, Note, NoteType, Text};
use std::alloc::Global;

/// What is asked with: the day, and the answers that cards got.
#[derive(Debug, Drop)]
pub(crate) struct SearchContext {
    pub(crate) alloc: Global,
    pub(crate) day: Day,
    pub(crate) answers: Answers,
}

impl SearchContext {
    /// Whether the card was answered with the ease in the last so many days.
    pub(crate) fn is_answered(&self, card: &Card, days: &i64, ease: &i64) -> bool
        ensures { result ≡ is_shown self.now.answers card.now.id ease.now (id_back self.now.day days.now) }
    {
        self.answers
            .is_shown(&card.id, ease, &id_back(self.day, days))
    }

    /// Whether it was answered with any ease but 0, which is that of a change by hand.
    pub(crate) fn is_rated(&self, card: &Card, days: &i64) -> bool
        ensures { result ≡ answered_since (is_shown self.now.answers card.now.id) (id_back self.now.day days.now) (pos 1 ∷ pos 2 ∷ pos 3 ∷ pos 4 ∷ []) }
    {
        self.is_answered(card, days, &1)
            || self.is_answered(card, days, &2)
            || self.is_answered(card, days, &3)
            || self.is_answered(card, days, &4)
    }

    /// Whether the term holds of the card, by what was looked up for it.
    pub(crate) fn holds(&self, card: &Card, latest: &Latest, term: &Term) -> Result<bool, Memory>
        ensures { IfOk result (λ does. does ≡ holds_by self.now.day self.now.answers card.now latest.now term.now) }
    {
        let alloc = self.alloc;
        let related = &latest.related;
        match term {
            Term::Contains(pattern) => some_passes(
                alloc,
                MatchMode::Whole,
                pattern.as_slice(),
                &latest.texts,
            ),
            Term::Word(pattern) => some_passes(
                alloc,
                MatchMode::Spaced,
                pattern.as_slice(),
                &latest.texts,
            ),
            Term::Field(name, pattern) => field_matches(
                alloc,
                name.as_str(),
                pattern.as_slice(),
                &related.note_type,
                &latest.texts,
            ),
            Term::Deck(pattern) => deck_matches(alloc, pattern.as_slice(), &related.deck),
            Term::Tag(pattern) => tag_matches(alloc, pattern.as_slice(), &related.note),
            Term::Untagged => has_no_tag(alloc, &related.note),
            Term::NoteType(pattern) => type_matches(alloc, pattern.as_slice(), &related.note_type),
            Term::Template(pattern) => template_matches(
                alloc,
                pattern.as_slice(),
                &related.note_type,
                card,
            ),
            Term::Edited(days) => Ok(was_edited(self.day, days, &related.note)),
            Term::InState(_) | Term::Prop(_, _, _) | Term::Flag(_) | Term::Added(_) => Ok(
                self.holds_at_once(card, term),
            ),
            Term::Rated(_) | Term::RatedWith(_, _) => Ok(self.holds_at_once(card, term)),
            Term::NoteIds(_) | Term::CardIds(_) => Ok(self.holds_at_once(card, term)),
        }
    }
}

/// Whether some text passes. None does without a note.
fn some_passes(
    alloc: Global,
    mode: MatchMode,
    pattern: &[PatternItem],
    texts: &Option<List<Text>>,
) -> Result<bool, Memory>
    ensures { IfOk result (λ does. does ≡ held_and (list_any (passes mode pattern.now)) texts.now) }
{
    match texts {
        Some(texts) => some_text_passes(alloc, mode, pattern, texts.as_slice()),
        None => Ok(false),
    }
}

/// Whether the text of the field of that name matches. It does not without a note or its type.
fn field_matches(
    alloc: Global,
    name: &str,
    pattern: &[PatternItem],
    note_type: &Option<BoxedType>,
    texts: &Option<List<Text>>,
) -> Result<bool, Memory>
    ensures { IfOk result (λ does. does ≡ field_passes name.now pattern.now note_type.now texts.now) }
{
    match (note_type, texts) {
        (Some(boxed), Some(texts)) => {
            named_text_matches(
                alloc,
                name,
                pattern,
                boxed.note_type().fields.as_slice(),
                texts.as_slice(),
            )
        }
        _ => Ok(false),
    }
}

/// Whether the deck, or one above it, matches by name.
fn deck_matches(alloc: Global, pattern: &[PatternItem], deck: &Option<Deck>) -> Result<bool, Memory>
    ensures { IfOk result (λ does. does ≡ held_and (λ (d : Kept). path_matches pattern.now d.name) deck.now) }
{
    match deck {
        Some(deck) => path_matches(alloc, pattern, deck.name.as_str()),
        None => Ok(false),
    }
}

/// Whether the note has a tag that matches, or one below such a tag.
fn tag_matches(alloc: Global, pattern: &[PatternItem], note: &Option<Note>) -> Result<bool, Memory>
    ensures { IfOk result (λ does. does ≡ held_and (has_tag pattern.now) note.now) }
{
    match note {
        Some(note) => some_tag_matches(alloc, pattern, note),
        None => Ok(false),
    }
}

/// Whether there is a note without tags.
fn has_no_tag(alloc: Global, note: &Option<Note>) -> Result<bool, Memory>
    ensures { IfOk result (λ has. has ≡ held_and is_untagged note.now) }
{
    match note {
        Some(note) => is_untagged(alloc, note),
        None => Ok(false),
    }
}

/// Whether the type matches by name.
fn type_matches(
    alloc: Global,
    pattern: &[PatternItem],
    note_type: &Option<BoxedType>,
) -> Result<bool, Memory>
    ensures { IfOk result (λ does. does ≡ held_and (is_type pattern.now) note_type.now) }
{
    match note_type {
        Some(boxed) => matches(alloc, pattern, boxed.note_type().name.as_str()),
        None => Ok(false),
    }
}

/// Whether the template of the card matches by name or place.
fn template_matches(
    alloc: Global,
    pattern: &[PatternItem],
    note_type: &Option<BoxedType>,
    card: &Card,
) -> Result<bool, Memory>
    ensures { IfOk result (λ does. does ≡ held_and (is_template pattern.now card.now) note_type.now) }
{
    match note_type {
        Some(boxed) => is_template(alloc, pattern, boxed.note_type(), card),
        None => Ok(false),
    }
}

/// The same of a type that is held. A type of clozes has one template for all its cards.
fn is_template(
    alloc: Global,
    pattern: &[PatternItem],
    note_type: &NoteType,
    card: &Card,
) -> Result<bool, Memory>
    ensures { IfOk result (λ is. is ≡ is_template pattern.now card.now note_type.now) }
{
    let place = if note_type.cloze { 0 } else { card.ord };
    match template_at(note_type.templates.as_slice(), &place) {
        Some(template) => is_place_or_name(alloc, pattern, &place, template),
        None => Ok(false),
    }
}

/// The template at a place from 0.
#[tactic(auto, using(crate::proofs::Looking::template_there, crate::proofs::Looking::no_template))]
fn template_at<'a>(templates: &'a [CardTemplate], place: &i64) -> Option<&'a CardTemplate>
    ensures some { IfSome result (λ template. template_at templates.now place.now ≡ Some template.now) }
    ensures none { IfNone result (template_at templates.now place.now ≡ None) }
{
    if *place < 0 {
        return None;
    }
    nth(templates, place.unsigned_abs() as usize)
}

/// The template at a place that is not negative.
fn nth(templates: &[CardTemplate], place: usize) -> Option<&CardTemplate>
    ensures some { IfSome result (λ template. slice_get templates.now place ≡ Some template.now) }
    ensures none { IfNone result (slice_get templates.now place ≡ None) }
{
    templates.get(place)
}

/// Whether the pattern is the place of the template, or matches its name.
fn is_place_or_name(
    alloc: Global,
    pattern: &[PatternItem],
    place: &i64,
    template: &CardTemplate,
) -> Result<bool, Memory>
    ensures { IfOk result (λ is. is ≡ (is_place pattern.now place.now || matches pattern.now template.now.name)) }
{
    if is_place(alloc, pattern, place)? {
        return Ok(true);
    }
    matches(alloc, pattern, template.name.as_str())
}

/// Whether the pattern is the place, counted from 1.
fn is_place(alloc: Global, pattern: &[PatternItem], place: &i64) -> Result<bool, Memory>
    ensures { IfOk result (λ is. is ≡ is_place pattern.now place.now) }
{
    let number = *place as i128 + 1;
    let text = format!(in alloc; "{number}")?;
    Ok(are_letters(pattern, text.as_bytes()))
}

/// Whether the note was changed in the last so many days.
fn was_edited(day: Day, days: &i64, note: &Option<Note>) -> bool
    ensures { result ≡ held_and (is_edited day days.now) note.now }
{
    match note {
        Some(note) => is_since(&note.stamp, &second_back(day, days)),
        None => false,
    }
}
