// The places of rows, with what is kept beside them so that nobody walks over a table to know it, or over what was not
// changed to settle it.
ghost use Rattle.std.specs.Prelude.{◌≡◌, ℤ, true, false, not, cond, Some, None, [], ◌+◌, ◌-◌, ◌<◌, ◌≤◌, ◌^◌, ◌&&◌, ◌++◌, ◌∷◌, if◌then◌else◌, length, is_some, slice_index, slice_set, IfOk, IfSome, OnOk, OnErr};
ghost use Rattle.std.specs.Bool.{OnFalse, OnTrue};
ghost use Rattle.std.specs.BTreeMap.{is_at};
ghost use Rattle.std.specs.FinMap as finite;
ghost use Rattle.std.specs.List.Sorted.{IsStrictlySortedBy};
ghost use Rattle.std.specs.Map.{keys_of};
ghost use Rattle.std.specs.Option.{option_and_then, option_copied};
ghost use Rattle.std.specs.Vec.{vec_capacity, vec_len};
ghost use Rattle.ak_base.specs.Names.{name_cmp, table_place};
ghost use Rattle.ak_base.specs.Rows.{name_of};
ghost use Rattle.ak_base.specs.declared.names.Name.{Name as RowName};
ghost use Rattle.ak_keep.specs.Collections.{cards_of, row_count};
ghost use Rattle.ak_keep.specs.FreeNames.{IsFirstFree, IsFoundFrom, is_used};
ghost use Rattle.ak_keep.specs.WaitingCards.{IsHeld, IsWaitingPage};
ghost use Rattle.ak_memory.specs.CardKeys.{AreForgotten, HasKeys};
ghost use Rattle.ak_memory.specs.FoundBy.{found_by};
ghost use Rattle.ak_memory.specs.HeldRows.{held_in, row_in};
ghost use Rattle.ak_memory.specs.Indexes.{HaveAllKeys, IsIndexed, rows_of};
ghost use Rattle.ak_memory.specs.Places.{AreFull, found_under, is_among, is_changed_under, place_under, one_if, row_under, rows_at, unchanged_count, with_under};
ghost use Rattle.ak_memory.specs.TakenRuns.{runs_before};
ghost use Rattle.ak_memory.specs.Versions.{other};
ghost use Rattle.ak_memory.specs.declared.versions.Version.{Version as WhichVersion};
ghost use Rattle.ak_memory.specs.declared.versions.Version.TheVariants.{Mark, Now};

use crate::by_name::{Places, add_place, add_same, drop_empty, hold_under, row_of, settle_under};
use crate::card_keys::CardKeys;
use crate::held_rows::{FoundBy, HeldRow, Replacement};
use crate::note_keys::ids_of;
use crate::places::Change;
use crate::queue_keys::waiting_of;
use crate::taken_runs::TakenRuns;
use crate::versions::Version;
use ak_base::{Card, LAST_ID, List, Memory, Name, Row, Table};
use ak_keep::Waiting;
use std::alloc::Global;
use std::collections::BTreeMap;

/// The places of rows by name. Beside them are the numbers of rows of each table, now and at the mark, keys by
/// which cards are found, the names of the places that were changed since the mark, some of them twice, and ids that are taken now.
#[derive(Debug, Drop)]
pub(crate) struct IndexedPlaces {
    places: Places,
    counts: [u64; 9],
    mark_counts: [u64; 9],
    cards: CardKeys,
    noted: Vec<Name>,
    taken: TakenRuns,
}

impl IndexedPlaces {
    /// No places.
    pub(crate) fn new(alloc: Global) -> IndexedPlaces
        ensures indexed { IsIndexed result }
        ensures rows { (version : WhichVersion) → rows_of version result ≡ finite.empty }
    {
        IndexedPlaces {
            places: BTreeMap::new(alloc),
            counts: [0; 9],
            mark_counts: [0; 9],
            cards: CardKeys::new(alloc),
            noted: Vec::new(alloc),
            taken: TakenRuns::none(),
        }
    }

    /// The places by name.
    pub(crate) fn places(&self) -> &Places
        ensures { result.now ≡ self.now.places }
    {
        &self.places
    }

    /// The row that is held under the name.
    pub(crate) fn get(&self, name: &Name) -> Option<&HeldRow>
        ensures { held_in (option_copied result) ≡ finite.get (rows_of Now self.now) name.now }
    {
        row_of(&self.places, name)
    }

    /// How many rows the table has.
    pub(crate) fn count(&self, table: Table) -> u64
        requires { IsIndexed self.now }
        ensures count { result ≡ row_count table (rows_of Now self.now) }
        ensures small { result < 2 ^ 63 }
    {
        // For the proof alone: a map says that it is small and that its keys ascend when its length is asked.
        let _small = self.places.len();
        self.counts[table.place() as usize]
    }

    /// The ids of the note's cards, in the order of their names.
    pub(crate) fn cards_of(&self, alloc: Global, note: &i64) -> Result<List<i64>, Memory>
        requires { IsIndexed self.now }
        ensures { IfOk result (λ ids. ids ≡ cards_of note.now (rows_of Now self.now)) }
    {
        // For the proof alone, as in `count`.
        let _ordered = self.places.len();
        let ids = ids_of(alloc, &self.cards.notes, &self.places, note)?;
        Ok(ids)
    }

    /// The first `limit` of the cards that are asked for, by due, then by id.
    pub(crate) fn waiting(
        &self,
        alloc: Global,
        waiting: &Waiting,
        limit: usize,
    ) -> Result<List<Card>, Memory>
        requires { IsIndexed self.now }
        ensures { IfOk result (λ page. IsWaitingPage (IsHeld (rows_of Now self.now)) waiting.now limit page) }
    {
        let page = waiting_of(alloc, &self.cards.queues, &self.places, waiting, limit)?;
        Ok(page)
    }

    /// The first name of its table from this one on that is free for a new row. It steps over the ids that were found to be
    /// taken before, if the first id is among them. It takes no memory.
    pub(crate) fn free_name(&mut self, first: Name) -> Option<Name>
        requires { IsIndexed self.old }
        ensures indexed { IsIndexed self.new }
        ensures rows { (version : WhichVersion) → rows_of version self.new ≡ rows_of version self.old }
        ensures free { IsFirstFree (is_used (finite.get (rows_of Now self.old))) first result }
        ensures range { IfSome result (IsFoundFrom first) }
    {
        let run = self.taken.of(first.table).reaching(first);
        let run = run.extended(&self.places, first.table);
        self.taken.keep(first.table, run);
        if run.end > LAST_ID {
            return None;
        }
        Some(Name {
            table: first.table,
            id: run.end,
        })
    }

    /// Holds the row under its name from now on, in place of the row that is held there.
    pub(crate) fn put(&mut self, alloc: Global, row: Row) -> Result<(), Memory>
        requires { IsIndexed self.old }
        ensures indexed { IsIndexed self.new }
        ensures ok { OnOk result (rows_of Now self.new ≡ finite.insert (rows_of Now self.old) (name_of row) row) }
        ensures mark { rows_of Mark self.new ≡ rows_of Mark self.old }
        ensures err { OnErr result (rows_of Now self.new ≡ rows_of Now self.old) }
    {
        // Memory comes first: all that follows takes none.
        let name = row.name();
        let row = Replacement::of(alloc, row)?;
        self.make_room(&row.row.found_by(), name)?;
        self.make_place(name)?;
        self.exchange(name, Some(row));
        Ok(())
    }

    /// Holds the row under its name, unless a row is held there: whether it does. It may hold it at the mark too, since then
    /// no place is noted as changed.
    pub(crate) fn load(&mut self, alloc: Global, row: Row) -> Result<bool, Memory>
        requires { IsIndexed self.old }
        ensures indexed { IsIndexed self.new }
        ensures free { IfOk result (λ loaded. OnTrue loaded (finite.get (rows_of Now self.old) (name_of row) ≡ None)) }
        ensures put { IfOk result (λ loaded. OnTrue loaded (rows_of Now self.new ≡ finite.insert (rows_of Now self.old) (name_of row) row)) }
        ensures held { IfOk result (λ loaded. OnFalse loaded (is_some (finite.get (rows_of Now self.old) (name_of row)) ≡ true)) }
        ensures same { IfOk result (λ loaded. OnFalse loaded (rows_of Now self.new ≡ rows_of Now self.old)) }
        ensures err { OnErr result (rows_of Now self.new ≡ rows_of Now self.old) }
    {
        let name = row.name();
        if !self.places.contains_key(&name) {
            self.add(alloc, row)?;
            return Ok(true);
        }
        if self.get(&name).is_some() {
            return Ok(false);
        }
        self.put(alloc, row)?;
        Ok(true)
    }

    /// Holds the row under its name, now and at the mark. There is no place under the name yet.
    fn add(&mut self, alloc: Global, row: Row) -> Result<(), Memory>
        requires indexed { IsIndexed self.old }
        requires free { place_under self.old.places.entries (name_of row) ≡ None }
        ensures indexed { IsIndexed self.new }
        ensures ok { OnOk result (rows_of Now self.new ≡ finite.insert (rows_of Now self.old) (name_of row) row) }
        ensures err { OnErr result (rows_of Now self.new ≡ rows_of Now self.old) }
    {
        let name = row.name();
        let row = HeldRow::of(alloc, row)?;
        self.make_room(&row.found_by(), name)?;
        add_same(&mut self.places, name, row)?;
        count_change(&mut self.counts, name.table, false, true);
        count_change(&mut self.mark_counts, name.table, false, true);
        Ok(())
    }

    /// Sees to it that there is room to note one place more, and that the card of this name has its keys.
    fn make_room(&mut self, card: &Option<FoundBy>, name: Name) -> Result<(), Memory>
        requires { IsIndexed self.old }
        ensures indexed { IsIndexed self.new }
        ensures places { self.new.places ≡ self.old.places }
        ensures counts { self.new.counts ≡ self.old.counts }
        ensures mark_counts { self.new.mark_counts ≡ self.old.mark_counts }
        ensures small { length self.new.places.entries < 2 ^ 63 }
        ensures keys { OnOk result (IfSome card.now (λ card. HasKeys self.new.cards card name)) }
        ensures room { OnOk result (vec_len self.new.noted + (length self.new.places.entries + 1) ≤ vec_capacity self.new.noted) }
    {
        self.noted.reserve(self.places.len() + 1)?;
        self.cards.add(card, name)?;
        Ok(())
    }

    /// Takes out the row of this name, if there is one. It takes no memory.
    pub(crate) fn take(&mut self, name: Name)
        requires { IsIndexed self.old }
        ensures indexed { IsIndexed self.new }
        ensures now { rows_of Now self.new ≡ finite.remove (rows_of Now self.old) name }
        ensures mark { rows_of Mark self.new ≡ rows_of Mark self.old }
    {
        self.exchange(name, None);
    }

    /// Sees to it that there is a place under the name.
    fn make_place(&mut self, name: Name) -> Result<(), Memory>
        requires indexed { IsIndexed self.old }
        requires room { vec_len self.old.noted + (length self.old.places.entries + 1) ≤ vec_capacity self.old.noted }
        ensures indexed { IsIndexed self.new }
        ensures cards { self.new.cards ≡ self.old.cards }
        ensures rows { (version : WhichVersion) → rows_of version self.new ≡ rows_of version self.old }
        ensures there { OnOk result (place_under self.new.places.entries name ≡ None → ⊥) }
    {
        if self.places.contains_key(&name) {
            return Ok(());
        }
        add_place(&mut self.places, name)?;
        self.noted.push_reserved(name);
        Ok(())
    }

    /// Holds the row under the name from now on, or none. For a row there are a place and its keys. It takes no memory.
    fn exchange(&mut self, name: Name, row: Option<Box<Replacement>>)
        requires indexed { IsIndexed self.old }
        requires place { place_under self.old.places.entries name ≡ None → row_in row ≡ None }
        requires keys { IfSome (option_and_then found_by (row_in row)) (λ card. HasKeys self.old.cards card name) }
        requires named { IfSome (row_in row) (λ row. name_of row ≡ name) }
        ensures indexed { IsIndexed self.new }
        ensures now { rows_of Now self.new ≡ with_under name (row_in row) (rows_of Now self.old) }
        ensures mark { rows_of Mark self.new ≡ rows_of Mark self.old }
        ensures gone { IfSome (found_under Now self.old.places.entries name) (λ was. AreForgotten self.new.cards (found_under Now self.new.places.entries name) (found_under Mark self.new.places.entries name) was name) }
    {
        // For the proof alone: there are fewer than 2^63 places, so a count has room for one more.
        let _small = self.places.len();
        let holds = row.is_some();
        let Some(change) = hold_under(&mut self.places, name, row) else {
            return;
        };
        note_change(&mut self.noted, name, change.first);
        count_change(&mut self.counts, name.table, change.held, holds);
        self.cards.forget(&self.places, &change.card, name);
        forget_taken(&mut self.taken, name, holds);
    }

    /// What this version holds is held from now on, and was held at the mark. It takes no memory, and a step for each
    /// place that was changed.
    pub(crate) fn settle(&mut self, version: Version)
        requires { IsIndexed self.old }
        ensures indexed { IsIndexed self.new }
        ensures rows { (each : WhichVersion) → rows_of each self.new ≡ rows_of version self.old }
    {
        settle_all(
            &mut self.places,
            &mut self.cards,
            self.noted.as_slice(),
            version,
        );
        self.noted.clear();
        match version {
            Version::Now => self.mark_counts = self.counts,
            Version::Mark => {
                self.counts = self.mark_counts;
                self.taken = TakenRuns::none();
            }
        }
    }
}

/// Notes the name, if its place was not changed before. It takes no memory.
fn note_change(noted: &mut Vec<Name>, name: Name, first: bool)
    requires { first ≡ true → vec_len noted.old < vec_capacity noted.old }
    ensures names { noted.new.items ≡ noted.old.items ++ (if first then name ∷ [] else []) }
    ensures len { vec_len noted.new ≡ vec_len noted.old + one_if first }
    ensures capacity { vec_capacity noted.new ≡ vec_capacity noted.old }
{
    if first {
        noted.push_reserved(name);
    }
}

/// Settles the places under these names: they hold from now on what they held in this version, and are not changed.
fn settle_all(places: &mut Places, cards: &mut CardKeys, names: &[Name], version: Version)
    requires { HaveAllKeys cards.old places.old.entries }
    ensures keys { HaveAllKeys cards.new places.new.entries }
    ensures rows { (each : WhichVersion) (q : RowName) → row_under each places.new.entries q ≡ cond (is_among names.now q) (row_under version places.old.entries q) (row_under each places.old.entries q) }
    ensures changed { (q : RowName) → is_changed_under places.new.entries q ≡ (not (is_among names.now q) && is_changed_under places.old.entries q) }
    ensures full { AreFull places.old.entries → AreFull places.new.entries }
    ensures count { unchanged_count places.new.entries ≤ unchanged_count places.old.entries + length names.now }
{
    for name in names {
        settle_one(places, cards, *name, version);
    }
}

/// Settles the place under the name, and takes out the keys of its card that are not needed any more.
fn settle_one(places: &mut Places, cards: &mut CardKeys, name: Name, version: Version)
    requires { HaveAllKeys cards.old places.old.entries }
    ensures keys { HaveAllKeys cards.new places.new.entries }
    ensures rows { (each : WhichVersion) (q : RowName) → row_under each places.new.entries q ≡ cond (is_at (name_cmp name) q) (row_under version places.old.entries q) (row_under each places.old.entries q) }
    ensures changed { (q : RowName) → is_changed_under places.new.entries q ≡ (not (is_at (name_cmp name) q) && is_changed_under places.old.entries q) }
    ensures full { AreFull places.old.entries → AreFull places.new.entries }
    ensures count { unchanged_count places.new.entries ≤ unchanged_count places.old.entries + 1 }
    ensures gone { IfSome (found_under (other version) places.old.entries name) (λ was. AreForgotten cards.new (found_under Now places.new.entries name) (found_under Mark places.new.entries name) was name) }
{
    let card = settle_under(places, name, version);
    drop_empty(places, name);
    cards.forget(places, &card, name);
}

/// Counts a row in or out, if one came where none was held, or none where one was.
fn count_change(counts: &mut [u64; 9], table: Table, held: bool, holds: bool)
    requires small { slice_index counts.old (table_place table) < 2 ^ 63 }
    requires some { held ≡ true → 0 < slice_index counts.old (table_place table) }
    ensures { counts.new ≡ slice_set counts.old (table_place table) (slice_index counts.old (table_place table) + one_if holds - one_if held) }
{
    let place = table.place() as usize;
    match (held, holds) {
        (false, true) => counts[place] += 1,
        (true, false) => counts[place] -= 1,
        _ => {}
    }
}

/// Ends the runs of taken ids before the name, unless a row is held under it.
fn forget_taken(taken: &mut TakenRuns, name: Name, holds: bool)
    ensures { taken.new ≡ (if holds then taken.old else runs_before name.id taken.old) }
{
    if !holds {
        taken.end_before(name);
    }
}
