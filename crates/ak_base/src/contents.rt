// Whether two rows are equal but for their usns, or for their stamps too.
ghost use Rattle.std.specs.Prelude.{◌≡◌, ◌&&◌};
ghost use Rattle.std.specs.Cmp.Lexicographic.{pointwise};
ghost use Rattle.ak_base.specs.Contents.{truth, same_content, same_but_stamp_and_usn, same_field, same_template};
ghost use Rattle.ak_base.specs.Contents.{card_numbers, deck_numbers, note_numbers, note_type_numbers, general_numbers, review_options, lapse_numbers};
ghost use Rattle.ak_base.specs.declared.rows.Row.TheVariants as rows;

use crate::{Card, Deck, Grave, Note, NoteType, Options, Review, Row};

impl Row {
    /// Whether the two are equal but for the usn. It takes no memory.
    pub fn same_content(&self, other: &Row) -> bool
        ensures { result ≡ same_content self.now other.now }
    {
        self.stamp() == other.stamp() && self.same_but_stamp_and_usn(other)
    }

    /// Whether the two are equal but for the stamp and the usn. It takes no memory.
    pub fn same_but_stamp_and_usn(&self, other: &Row) -> bool
        ensures { result ≡ same_but_stamp_and_usn self.now other.now }
    {
        match self {
            Row::Note(a) => match other {
                Row::Note(b) => same_notes(a, b),
                _ => false,
            },
            Row::Card(a) => match other {
                Row::Card(b) => same_cards(a, b),
                _ => false,
            },
            Row::Review(a) => match other {
                Row::Review(b) => same_reviews(a, b),
                _ => false,
            },
            Row::NoteType(a) => match other {
                Row::NoteType(b) => same_note_types(a, b),
                _ => false,
            },
            Row::Deck(a) => match other {
                Row::Deck(b) => same_decks(a, b),
                _ => false,
            },
            Row::Options(a) => match other {
                Row::Options(b) => same_options(a, b),
                _ => false,
            },
            Row::Grave(a) => match other {
                Row::Grave(b) => same_graves(a, b),
                _ => false,
            },
        }
    }
}

/// Whether the two are equal but for stamp and usn.
fn same_notes(a: &Note, b: &Note) -> bool
    ensures { result ≡ same_but_stamp_and_usn (rows.Note a.now) (rows.Note b.now) }
{
    note_numbers(a) == note_numbers(b)
        && a.guid == b.guid
        && a.tags == b.tags
        && a.flds == b.flds
        && a.sfld == b.sfld
        && a.extra == b.extra
}

/// The numbers of a note but for stamp and usn.
fn note_numbers(n: &Note) -> [i64; 4]
    ensures { result ≡ note_numbers n.now }
{
    [n.id, n.mid, n.csum, n.flags]
}

/// Whether the two are equal but for stamp and usn.
fn same_cards(a: &Card, b: &Card) -> bool
    ensures { result ≡ same_but_stamp_and_usn (rows.Card a.now) (rows.Card b.now) }
{
    card_numbers(a) == card_numbers(b) && a.extra == b.extra
}

/// The numbers of a card but for stamp and usn.
fn card_numbers(c: &Card) -> [i64; 15]
    ensures { result ≡ card_numbers c.now }
{
    [
        c.id, c.nid, c.did, c.ord, c.kind, c.queue, c.due, c.ivl, c.factor, c.reps, c.lapses,
        c.left, c.odue, c.odid, c.flags,
    ]
}

/// Whether the two are equal but for the usn.
fn same_reviews(a: &Review, b: &Review) -> bool
    ensures { result ≡ same_but_stamp_and_usn (rows.Review a.now) (rows.Review b.now) }
{
    [
        a.id, a.cid, a.ease, a.ivl, a.last_ivl, a.factor, a.time, a.kind,
    ] == [
        b.id, b.cid, b.ease, b.ivl, b.last_ivl, b.factor, b.time, b.kind,
    ]
}

/// Whether the two are equal but for stamp and usn.
fn same_note_types(a: &NoteType, b: &NoteType) -> bool
    ensures { result ≡ same_but_stamp_and_usn (rows.NoteType a.now) (rows.NoteType b.now) }
{
    note_type_numbers(a) == note_type_numbers(b)
        && a.name == b.name
        && a.rest == b.rest
        && same_lists(a, b)
}

/// The numbers of a note type but for stamp and usn.
fn note_type_numbers(t: &NoteType) -> [i64; 3]
    ensures { result ≡ note_type_numbers t.now }
{
    [t.id, truth(t.cloze), t.sortf]
}

/// Whether the two have equal fields and equal templates.
fn same_lists(a: &NoteType, b: &NoteType) -> bool
    ensures { result ≡ (pointwise same_field a.now.fields b.now.fields && pointwise same_template a.now.templates b.now.templates) }
{
    a.fields == b.fields && a.templates == b.templates
}

/// Whether the two are equal but for stamp and usn.
fn same_decks(a: &Deck, b: &Deck) -> bool
    ensures { result ≡ same_but_stamp_and_usn (rows.Deck a.now) (rows.Deck b.now) }
{
    deck_numbers(a) == deck_numbers(b) && a.name == b.name && a.rest == b.rest
}

/// The numbers of a deck but for stamp and usn.
fn deck_numbers(d: &Deck) -> [i64; 7]
    ensures { result ≡ deck_numbers d.now }
{
    [
        d.id,
        d.options,
        truth(d.filtered),
        d.new_today.day,
        d.new_today.count,
        d.rev_today.day,
        d.rev_today.count,
    ]
}

/// Whether the two are equal but for stamp and usn.
fn same_options(a: &Options, b: &Options) -> bool
    ensures { result ≡ same_but_stamp_and_usn (rows.Options a.now) (rows.Options b.now) }
{
    general_numbers(a) == general_numbers(b)
        && a.new_steps == b.new_steps
        && review_options(a) == review_options(b)
        && lapse_numbers(a) == lapse_numbers(b)
        && a.lapse_steps == b.lapse_steps
        && a.name == b.name
        && a.rest == b.rest
}

/// The numbers of an option group but for stamp and usn: of every card, and of new cards.
fn general_numbers(o: &Options) -> [i64; 7]
    ensures { result ≡ general_numbers o.now }
{
    [
        o.id,
        o.max_taken,
        o.grad_ivl,
        o.easy_ivl,
        o.initial_factor,
        o.new_per_day,
        truth(o.new_bury),
    ]
}

/// The numbers of an option group: of reviews.
fn review_options(o: &Options) -> [i64; 6]
    ensures { result ≡ review_options o.now }
{
    [
        o.rev_per_day,
        o.ease4,
        o.ivl_fct,
        o.max_ivl,
        o.hard_factor,
        truth(o.rev_bury),
    ]
}

/// The numbers of an option group: of cards that were forgotten.
fn lapse_numbers(o: &Options) -> [i64; 4]
    ensures { result ≡ lapse_numbers o.now }
{
    [o.mult, o.min_int, o.leech_fails, o.leech_action]
}

/// Whether the two are equal but for the usn.
fn same_graves(a: &Grave, b: &Grave) -> bool
    ensures { result ≡ same_but_stamp_and_usn (rows.Grave a.now) (rows.Grave b.now) }
{
    [a.oid, a.kind] == [b.oid, b.kind]
}

/// A truth value as a number.
fn truth(value: bool) -> i64
    ensures { result ≡ truth value }
{
    if value { 1 } else { 0 }
}
