// The decks that count an answer, and their counts of the day.
ghost use Rattle.std.specs.Prelude.{◌≡◌, ◌+ℤ◌, pos, Some, IfOk, int_lt, if◌then◌else◌};
ghost use Rattle.ak_base.specs.Paths.{parts_of};
ghost use Rattle.ak_queue.specs.Limits.{is_ancestor};
ghost use Rattle.ak_base.specs.declared.names.Table.TheVariants as tables;
ghost use Rattle.ak_base.specs.declared.rows.Row.TheVariants as rows;
ghost use Rattle.ak_keep.specs.Collections.{rows_past};
ghost use Rattle.ak_keep.specs.Readings.{ReadsBy};
ghost use Rattle.ak_study.specs.DeckCounts.{counted, counted_row, counts_for, one_more};
ghost use Rattle.ak_study.specs.Answers.{counts_put};
ghost use Rattle.ak_study.specs.RowChanges.{put_rows_changed};

use crate::row_changes::{RowChange, change_rows};
use ak_base::{Card, Count, Day, Deck, LAST_COUNT, Memory, Row, Table, is_in_subtree};
use ak_edit::Change;
use ak_keep::{KeepFault, Readable, deck_of_card};

/// Counts the answer of a card in its deck and in each deck above it. Only new cards and reviews are counted; for those it reads
/// all decks.
pub(crate) fn count_answer<R: Readable>(
    from: &mut R,
    change: &mut Change,
    day: Day,
    card: &Card,
) -> Result<(), KeepFault>
    ensures reads { ReadsBy R.Lookup from.old from.new result (λ h _.
        change.new ≡ counts_put day h.rows card.now change.old) }
{
    if card.queue != 0 && card.queue != 2 {
        return Ok(());
    }
    match deck_of_card(from, card)? {
        Some(home) => {
            let counting = Counting {
                day,
                queue: card.queue,
            };
            count_in(from, change, home, counting)?;
            Ok(())
        }
        None => Ok(()),
    }
}

/// Counts an answer in this deck and in each deck above it.
fn count_in<R: Readable>(
    from: &mut R,
    change: &mut Change,
    home: Deck,
    counting: Counting,
) -> Result<(), KeepFault>
    ensures reads { ReadsBy R.Lookup from.old from.new result (λ h _.
        change.new ≡ put_rows_changed (counted_row counting.day counting.queue home) (rows_past tables.Deck (pos 0) h.rows) change.old) }
{
    let by = CountAnswer { home, counting };
    change_rows(from, change, Table::Deck, &by)
}

/// The day of an answer, and the queue in which the card was.
#[derive(Clone, Copy, Debug)]
pub(crate) struct Counting {
    pub(crate) day: Day,
    pub(crate) queue: i64,
}

/// The change that counts an answer in a deck.
#[derive(Drop)]
struct CountAnswer {
    /// The deck of the card.
    home: Deck,
    counting: Counting,
}

impl RowChange for CountAnswer {
    ghost use Rattle.ak_study.specs.DeckCounts.{counted_row};

    ghost change = { λ by. counted_row by.counting.day by.counting.queue by.home };

    fn apply(&self, row: &Row) -> Result<Option<Row>, Memory> {
        match row {
            Row::Deck(deck) => counted_row(&self.home, self.counting, deck),
            _ => Ok(None),
        }
    }
}

/// The deck after the answer, if it counts it.
fn counted_row(home: &Deck, counting: Counting, deck: &Deck) -> Result<Option<Row>, Memory>
    ensures { IfOk result (λ made. made ≡ counted_row counting.day counting.queue home.now (rows.Deck deck.now)) }
{
    if !counts_for(home, deck) {
        return Ok(None);
    }
    let copy = deck.copy()?;
    Ok(Some(Row::Deck(counting.counted(copy))))
}

/// Whether a deck counts the answers of cards in this deck.
fn counts_for(home: &Deck, deck: &Deck) -> bool
    ensures { result ≡ counts_for home.now deck.now }
{
    deck.id == home.id || is_above(deck.name.as_str(), home.name.as_str())
}

/// Whether a path is above another.
fn is_above(above: &str, path: &str) -> bool
    ensures { result ≡ is_ancestor (parts_of above.now) (parts_of path.now) }
{
    is_in_subtree(above, path) && !is_in_subtree(path, above)
}

impl Counting {
    /// The deck with the answer counted.
    fn counted(self, deck: Deck) -> Deck
        ensures { result ≡ counted self.day self.queue deck }
    {
        let mut made = deck;
        if self.queue == 0 {
            made.new_today = one_more(self.day, made.new_today);
        } else if self.queue == 2 {
            made.rev_today = one_more(self.day, made.rev_today);
        }
        made
    }
}

/// The count with one more today.
fn one_more(day: Day, count: Count) -> Count
    ensures { result ≡ one_more day count }
{
    if count.day != day.number {
        return Count {
            day: day.number,
            count: 1,
        };
    }
    Count {
        day: count.day,
        count: next_count(count.count),
    }
}

/// The number after one more; at its last value it stays.
fn next_count(count: i64) -> i64
    ensures { result ≡ (if int_lt count (pos 2_147_483_647) then count +ℤ pos 1 else count) }
{
    if count < LAST_COUNT { count + 1 } else { count }
}
