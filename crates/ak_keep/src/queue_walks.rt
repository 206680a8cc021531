ghost use Rattle.std.specs.Prelude.{◌≡◌, ◌<◌, ◌+◌, ◌≤◌, Some, None, true, false, length, IfOk, OnOk, OnErr};
ghost use Rattle.std.specs.List.{All, AllByRecursion};
ghost use Rattle.ak_base.specs.Cards.{IsCheckedCard};
ghost use Rattle.ak_keep.specs.Lookups.{cards_in};
ghost use Rattle.ak_keep.specs.QueueWalks.{most_pages, passed, places_after};
ghost use Rattle.ak_keep.specs.Readings.{ReadsBy};
ghost use Rattle.ak_keep.specs.WaitingCards.{AscendsAfter, IsOneOf, IsWaitingPage, comes_after, key_of, last_place, waits};

use crate::keepers::KeepFault;
use crate::readables::Readable;
use ak_base::{Card, List};

/// Which cards of a queue are asked for.
#[derive(Clone, Copy, Debug)]
pub struct Waiting {
    /// The queue, as cards store it.
    pub queue: i64,
    /// Only cards that come after this due and id; None for all.
    pub past: Option<(i64, i64)>,
    /// Only cards that are due at this number at the latest; None for all.
    pub last: Option<i64>,
}

/// A walk over the cards that wait in a queue, by due, then by id, and page by page.
#[derive(Clone, Copy, Debug)]
pub struct QueueWalk {
    waiting: Waiting,
    done: bool,
}

impl QueueWalk {
    /// A walk over the cards of the queue that are due at `last` at the latest; None for all.
    pub fn over(queue: i64, last: Option<i64>) -> QueueWalk
        ensures { result ≡ record { waiting = record { queue = queue; past = None; last = last }; done = false } }
    {
        let waiting = Waiting {
            queue,
            past: None,
            last,
        };
        QueueWalk {
            waiting,
            done: false,
        }
    }

    /// The queue whose cards it goes over.
    pub fn queue(&self) -> i64
        ensures { result ≡ self.now.waiting.queue }
    {
        self.waiting.queue
    }

    /// Whether no page is ahead.
    pub fn is_done(&self) -> bool
        ensures { result ≡ self.now.done }
    {
        self.done
    }

    /// The next page, of `limit` cards; the last has fewer, and may be empty. A refused call leaves the walk as it was.
    pub fn next<R: Readable>(&mut self, from: &mut R, limit: usize) -> Result<List<Card>, KeepFault>
        requires going { self.old.done ≡ false }
        requires low { 0 < limit }
        requires high { limit ≤ 1000 }
        ensures reads { ReadsBy R.Lookup from.old from.new result (λ h page. IsWaitingPage (IsOneOf (cards_in h.rows)) self.old.waiting limit page) }
        ensures passed { IfOk result (λ page. self.new ≡ passed limit page self.old) }
        ensures fits { IfOk result (λ page. length page ≤ limit) }
        ensures asked { IfOk result (λ page. AllByRecursion (λ c. waits self.old.waiting c ≡ true) page) }
        ensures ascends { IfOk result (λ page. AscendsAfter self.old.waiting.past page) }
        ensures checked { R.checks ≡ true → IfOk result (λ page. All IsCheckedCard page) }
        ensures shorter { OnOk result (most_pages self.new < most_pages self.old) }
        ensures err { OnErr result (self.new ≡ self.old) }
    {
        let page = from.waiting(self.waiting, limit)?;
        self.pass(page.as_slice(), limit);
        Ok(page)
    }

    /// Goes past the cards of a page that has room for `limit`.
    fn pass(&mut self, cards: &[Card], limit: usize)
        requires { 0 < limit }
        ensures passed { self.new ≡ passed limit cards.now self.old }
        ensures shorter { self.old.done ≡ false → AscendsAfter self.old.waiting.past cards.now → most_pages self.new < most_pages self.old }
    {
        if cards.len() < limit {
            self.done = true;
        } else {
            self.go_past(cards);
        }
    }

    /// Goes past the last of the cards.
    fn go_past(&mut self, cards: &[Card])
        ensures last { self.new ≡ record self.old { waiting = record self.old.waiting { past = last_place self.old.waiting.past cards.now } } }
        ensures fewer { AscendsAfter self.old.waiting.past cards.now → places_after self.new.waiting.past + length cards.now ≤ places_after self.old.waiting.past }
    {
        let mut rest = cards;
        while let Some((card, others)) = rest.split_first() {
            self.go_past_one(card);
            rest = others;
        }
    }

    /// Goes past the card.
    fn go_past_one(&mut self, card: &Card)
        ensures past { self.new ≡ record self.old { waiting = record self.old.waiting { past = Some (key_of card.now) } } }
        ensures fewer { comes_after self.old.waiting.past (key_of card.now) ≡ true → places_after self.new.waiting.past < places_after self.old.waiting.past }
    {
        self.waiting.past = Some((card.due, card.id));
    }
}
