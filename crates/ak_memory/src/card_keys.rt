// The keys by which cards are found. There may be more of them than cards: until a commit, and of a call that ran out of memory.
ghost use Rattle.std.specs.Prelude.{◌≡◌, true, false, not, [], ◌&&◌, ◌||◌, cond, IfSome, OnOk, OnErr};
ghost use Rattle.std.specs.BTreeMap.{is_at};
ghost use Rattle.ak_memory.specs.CardKeys.{AreForgotten, HasKeys, KeepsKeys, note_key, queue_key, shares_note, shares_place};
ghost use Rattle.ak_memory.specs.Indexes.{HaveAllKeys};
ghost use Rattle.ak_memory.specs.NoteKeys.{NoteKey as KeyOfNote, has_key, key_cmp};
ghost use Rattle.ak_memory.specs.Places.{found_under};
ghost use Rattle.ak_memory.specs.QueueKeys.{QueueKey as KeyOfQueue, has_queue_key, queue_key_cmp};
ghost use Rattle.ak_memory.specs.declared.versions.Version.TheVariants.{Mark, Now};

use crate::by_name::{Places, found_under};
use crate::held_rows::FoundBy;
use crate::note_keys::NoteKey;
use crate::queue_keys::QueueKey;
use ak_base::{Memory, Name};
use std::alloc::Global;
use std::collections::BTreeSet;

/// For each card a key by its note, and one by the queue that it waits in.
#[derive(Debug, Drop)]
pub(crate) struct CardKeys {
    pub notes: BTreeSet<NoteKey>,
    pub queues: BTreeSet<QueueKey>,
}

impl CardKeys {
    /// No keys.
    pub(crate) fn new(alloc: Global) -> CardKeys
        ensures notes { result.notes.keys ≡ [] }
        ensures queues { result.queues.keys ≡ [] }
    {
        CardKeys {
            notes: BTreeSet::new(alloc),
            queues: BTreeSet::new(alloc),
        }
    }

    /// Adds the keys of the card of this name. With no card there are none to add.
    pub(crate) fn add(&mut self, card: &Option<FoundBy>, name: Name) -> Result<(), Memory>
        ensures kept { KeepsKeys self.old self.new }
        ensures ok { OnOk result (IfSome card.now (λ card. HasKeys self.new card name)) }
    {
        match card {
            Some(card) => self.add_both(card, name),
            None => Ok(()),
        }
    }

    /// Adds the keys of the card.
    fn add_both(&mut self, card: &FoundBy, name: Name) -> Result<(), Memory>
        ensures kept { KeepsKeys self.old self.new }
        ensures ok { OnOk result (HasKeys self.new card.now name) }
    {
        self.add_note(card, name)?;
        self.add_queue(card, name)?;
        Ok(())
    }

    /// Adds the key of the card by its note.
    fn add_note(&mut self, card: &FoundBy, name: Name) -> Result<(), Memory>
        ensures keys { OnOk result ((key : KeyOfNote) → has_key self.new.notes.keys key ≡ cond (is_at (key_cmp (note_key card.now name)) key) true (has_key self.old.notes.keys key)) }
        ensures err { OnErr result (self.new.notes.keys ≡ self.old.notes.keys) }
        ensures others { self.new.queues ≡ self.old.queues }
    {
        self.notes.insert((card.note, Some(name)))?;
        Ok(())
    }

    /// Adds the key of the card by the queue that it waits in.
    fn add_queue(&mut self, card: &FoundBy, name: Name) -> Result<(), Memory>
        ensures keys { OnOk result ((key : KeyOfQueue) → has_queue_key self.new.queues.keys key ≡ cond (is_at (queue_key_cmp (queue_key card.now name)) key) true (has_queue_key self.old.queues.keys key)) }
        ensures err { OnErr result (self.new.queues.keys ≡ self.old.queues.keys) }
        ensures others { self.new.notes ≡ self.old.notes }
    {
        self.queues.insert((card.queue, Some((card.due, name))))?;
        Ok(())
    }

    /// Takes out the keys of the card that was under the name, but for one that a card there has now or had at the mark.
    /// With no card there are none to take out. It takes no memory.
    pub(crate) fn forget(&mut self, places: &Places, was: &Option<FoundBy>, name: Name)
        requires { HaveAllKeys self.old places.now.entries }
        ensures all { HaveAllKeys self.new places.now.entries }
        ensures gone { IfSome was.now (λ was. AreForgotten self.new (found_under Now places.now.entries name) (found_under Mark places.now.entries name) was name) }
    {
        // Most rows are no cards, or replaced none: nothing is looked up for them.
        match was {
            Some(was) => self.forget_card(places, was, name),
            None => {}
        }
    }

    /// Takes out the keys of a card, but for one that a card of the name has now or had at the mark.
    fn forget_card(&mut self, places: &Places, was: &FoundBy, name: Name)
        requires { HaveAllKeys self.old places.now.entries }
        ensures all { HaveAllKeys self.new places.now.entries }
        ensures gone { AreForgotten self.new (found_under Now places.now.entries name) (found_under Mark places.now.entries name) was.now name }
    {
        let found = found_under(places, &name);
        self.drop_note(needs_note(&found, was), was, name);
        self.drop_queue(needs_place(&found, was), was, name);
    }

    /// Takes out the key of the card by its note, unless it is needed.
    fn drop_note(&mut self, needed: bool, was: &FoundBy, name: Name)
        ensures keys { (key : KeyOfNote) → has_key self.new.notes.keys key ≡ cond (not needed && is_at (key_cmp (note_key was.now name)) key) false (has_key self.old.notes.keys key) }
        ensures others { self.new.queues ≡ self.old.queues }
    {
        if !needed {
            self.notes.remove(&(was.note, Some(name)));
        }
    }

    /// Takes out the key of the card by its queue, unless it is needed.
    fn drop_queue(&mut self, needed: bool, was: &FoundBy, name: Name)
        ensures keys { (key : KeyOfQueue) → has_queue_key self.new.queues.keys key ≡ cond (not needed && is_at (queue_key_cmp (queue_key was.now name)) key) false (has_queue_key self.old.queues.keys key) }
        ensures others { self.new.notes ≡ self.old.notes }
    {
        if !needed {
            self.queues.remove(&(was.queue, Some((was.due, name))));
        }
    }
}

/// Whether one of the two is a card of the same note.
fn needs_note(found: &(Option<FoundBy>, Option<FoundBy>), card: &FoundBy) -> bool
    ensures { result ≡ (shares_note found.now.0 card.now || shares_note found.now.1 card.now) }
{
    shares_note(&found.0, card) || shares_note(&found.1, card)
}

/// Whether one of the two is a card that waits at the same place of the same queue.
fn needs_place(found: &(Option<FoundBy>, Option<FoundBy>), card: &FoundBy) -> bool
    ensures { result ≡ (shares_place found.now.0 card.now || shares_place found.now.1 card.now) }
{
    shares_place(&found.0, card) || shares_place(&found.1, card)
}

/// Whether there is a card, and it is of the same note.
fn shares_note(found: &Option<FoundBy>, card: &FoundBy) -> bool
    ensures { result ≡ shares_note found.now card.now }
{
    match found {
        Some(found) => found.note == card.note,
        None => false,
    }
}

/// Whether there is a card, and it waits at the same place of the same queue.
fn shares_place(found: &Option<FoundBy>, card: &FoundBy) -> bool
    ensures { result ≡ shares_place found.now card.now }
{
    match found {
        Some(found) => found.queue == card.queue && found.due == card.due,
        None => false,
    }
}
