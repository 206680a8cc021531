// What the check needs of the rows, read in one pass over each table: so no row is looked up again that is seen to be good.
ghost use Rattle.std.specs.Prelude.{◌≡◌, ◌<◌, ◌∷◌, ◌++◌, [], true, false, pos, int_lt, map, length, IfSome, OnOk};
ghost use Rattle.std.specs.List.{HoldsAt, filter_map};
ghost use Rattle.std.specs.Ordering.{int_eq};
ghost use Rattle.ak_keep.specs.Collections.{Rows, rows_past};
ghost use Rattle.ak_keep.specs.Readings.{ReadsBy};
ghost use Rattle.ak_merge.specs.CheckLinks.{AreKnown, AreLinksOf, forgotten, link_of, places_of};

use ak_base::{List, Memory, NoteType, Row, Table};
use ak_keep::{KeepFault, Readable, Walk};

/// What the check needs of a card, a note or a type.
#[derive(Clone, Copy, Debug)]
pub(crate) struct Link {
    /// The id of the row.
    pub id: i64,
    /// The note of a card, and the type of a note.
    pub to: i64,
    /// The place of a card among the templates; of a type, the first place that may have none.
    pub ord: i64,
    /// Whether the row was seen to be good at each part of the check.
    pub good: bool,
}

/// The links of a collection's notes and cards, each by ascending id.
#[derive(Debug, Drop)]
pub(crate) struct Links {
    pub notes: Vec<Link>,
    pub cards: Vec<Link>,
}

/// The links of the notes and the cards that are held, in one pass over the types, the notes and the cards.
pub(crate) fn read_links<R: Readable>(from: &mut R) -> Result<Links, KeepFault>
    ensures reads { ReadsBy R.Lookup from.old from.new result (λ h links. AreLinksOf h.rows links) }
{
    // For the proof alone: it says that each row stands under its name.
    let _held = from.held();
    let types = links_in(from, Table::NoteType)?.into_vec();
    let mut notes = links_in(from, Table::Note)?.into_vec();
    let mut cards = links_in(from, Table::Card)?.into_vec();
    see_cards(&mut cards, &mut notes, &types);
    Ok(Links { notes, cards })
}

/// The links of the rows of a table.
fn links_in<R: Readable>(from: &mut R, table: Table) -> Result<List<Link>, KeepFault>
    ensures reads { ReadsBy R.Lookup from.old from.new result (λ h links. links ≡ filter_map link_of (rows_past table (pos 0) h.rows)) }
{
    let mut walk = Walk::over(table);
    let first = walk.next(from)?;
    let mut links = List::new(first.allocator());
    take_links(first.as_slice(), &mut links)?;
    'pages: while !walk.is_done() {
        let page = walk.next(from)?;
        take_links(page.as_slice(), &mut links)?;
    }
    Ok(links)
}

/// Adds the links of the rows.
fn take_links(rows: &[Row], links: &mut List<Link>) -> Result<(), Memory>
    ensures { OnOk result (links.new ≡ links.old ++ filter_map link_of rows.now) }
{
    let mut rest = rows;
    while let Some((row, others)) = rest.split_first() {
        take_link(row, links)?;
        rest = others;
    }
    Ok(())
}

/// Adds the link of the row, if it has one.
fn take_link(row: &Row, links: &mut List<Link>) -> Result<(), Memory>
    ensures { OnOk result (links.new ≡ links.old ++ filter_map link_of (row.now ∷ [])) }
{
    match link_of(row) {
        Some(link) => links.push(link),
        None => Ok(()),
    }
}

/// The link of a card, a note or a type, of which nothing is known yet.
fn link_of(row: &Row) -> Option<Link>
    ensures { result ≡ link_of row.now }
{
    match row {
        Row::Card(card) => Some(Link::new(card.id, card.nid, card.ord)),
        Row::Note(note) => Some(Link::new(note.id, note.mid, 0)),
        Row::NoteType(held) => Some(Link::new(held.id, 0, places_of(held))),
        _ => None,
    }
}

impl Link {
    /// A link, of which nothing is known yet.
    fn new(id: i64, to: i64, ord: i64) -> Link
        ensures { result ≡ record { id = id; to = to; ord = ord; good = false } }
    {
        Link {
            id,
            to,
            ord,
            good: false,
        }
    }
}

/// How many places for cards a type has. Clozes have any.
fn places_of(held: &NoteType) -> i64
    ensures { result ≡ places_of held.now }
{
    if held.cloze {
        return i64::MAX;
    }
    held.templates.as_slice().len() as i64
}

/// Looks at each card, its note and its type, and keeps of the card and of the note that they are good, if they are.
fn see_cards(cards: &mut [Link], notes: &mut [Link], types: &[Link])
    ensures cards { map forgotten cards.new ≡ map forgotten cards.old }
    ensures notes { map forgotten notes.new ≡ map forgotten notes.old }
    ensures known { (held : Rows) → AreKnown held types.now notes.old cards.old → AreKnown held types.now notes.new cards.new }
{
    let mut near = 0;
    for card in cards.iter_mut() {
        near = see_card(card, notes, types, near);
    }
}

/// The same of one card. Its note is looked for near the last one's, and it tells where it is.
fn see_card(card: &mut Link, notes: &mut [Link], types: &[Link], near: usize) -> usize
    ensures card { forgotten card.new ≡ forgotten card.old }
    ensures notes { map forgotten notes.new ≡ map forgotten notes.old }
    ensures known { (held : Rows) → AreKnown held types.now notes.old (card.old ∷ []) → AreKnown held types.now notes.new (card.new ∷ []) }
{
    let Some(place) = place_near(notes, near, &card.to) else {
        return near;
    };
    if let Some(held) = place_of(types, &notes[place].to) {
        card.good = is_below(card, &types[held]);
        notes[place].good = true;
    }
    place
}

/// Whether the type has a template at the card's place.
fn is_below(card: &Link, held: &Link) -> bool
    ensures { result ≡ int_lt card.now.ord held.now.ord }
{
    card.ord < held.ord
}

/// The place of the link of this id, which is first looked for near another place.
fn place_near(links: &[Link], near: usize, id: &i64) -> Option<usize>
    ensures { IfSome result (λ place. (place < length links.now) × HoldsAt (λ link. link.id ≡ id.now) links.now place) }
{
    let next = near.saturating_add(1);
    if is_at(links, near, id) {
        return Some(near);
    }
    if is_at(links, next, id) {
        return Some(next);
    }
    place_of(links, id)
}

/// Whether the link at this place has this id.
fn is_at(links: &[Link], place: usize, id: &i64) -> bool
    ensures { result ≡ true → (place < length links.now) × HoldsAt (λ link. link.id ≡ id.now) links.now place }
{
    if place < links.len() {
        return is_of(&links[place], id);
    }
    false
}

/// The place of the link of this id in a list by ascending ids.
fn place_of(links: &[Link], id: &i64) -> Option<usize>
    ensures { IfSome result (λ place. (place < length links.now) × HoldsAt (λ link. link.id ≡ id.now) links.now place) }
{
    let mut low = 0;
    let mut high = links.len();
    while low < high {
        let middle = low + (high - low) / 2;
        if is_of(&links[middle], id) {
            return Some(middle);
        }
        if comes_before(&links[middle], id) {
            low = middle + 1;
        } else {
            high = middle;
        }
    }
    None
}

/// Whether the link has this id.
fn is_of(link: &Link, id: &i64) -> bool
    ensures { result ≡ int_eq link.now.id id.now }
{
    link.id == *id
}

/// Whether the link has a lower id. It only says where to look on.
fn comes_before(link: &Link, id: &i64) -> bool {
    link.id < *id
}
