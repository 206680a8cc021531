ghost use Rattle.std.specs.List.{All, IsDistinct};
ghost use Rattle.std.specs.Ordering.{eq_by_cmp};
ghost use Rattle.std.specs.Prelude.{◌≡◌, IfOk, map};
ghost use Rattle.ak_base.specs.Heads.{IsHeadInRange};
ghost use Rattle.ak_base.specs.Names.{name_cmp};
ghost use Rattle.ak_base.specs.Rows.{IsChecked, name_of};
ghost use Rattle.ak_io.specs.Arrivals.{IsClockMoment};
ghost use Rattle.ak_openings.specs.Openings.{AreDefaultOptions, AreOpeningRows, IsDefaultDeck, IsOpening, IsOpeningConf, IsOpeningHead, row_usn};

use crate::Opening;
use crate::opening_types::{basic, cloze, reversed};
use ak_base::{Conf, Count, DAY_SECONDS, Deck, Head, List, Memory, Options, Rest, Row, Text};
use std::alloc::Global;

/// The moment at which the servers of a lab and of a made collection were opened, and what stands in for a lab's servers and
/// devices, in milliseconds.
pub const OPENING_MOMENT: i64 = 1_700_000_000_000;

/// The collection that is made at a moment in milliseconds: deck 1, options 1 and the note types 1 to 3. Its rows are to be
/// sent, as a learner's are, or they are a server's own, which has the usn 1 then.
pub fn opening(alloc: Global, ms: i64, unsent: bool) -> Result<Opening, Memory>
    requires moment { IsClockMoment ms }
    ensures is { IfOk result (IsOpening ms unsent) }

    // So a keeper takes it whole: each row passes its check, no two have one name, and the head is in its ranges.
    ensures checked { IfOk result (λ made. All IsChecked made.rows) }
    ensures distinct { IfOk result (λ made. IsDistinct (eq_by_cmp name_cmp) (map name_of made.rows)) }
    ensures range { IfOk result (λ made. IsHeadInRange made.head) }
{
    let second = ms / 1_000;
    let usn = row_usn(unsent);
    let rows = opening_rows(alloc, second, usn)?;
    let head = opening_head(alloc, ms, unsent)?;
    Ok(Opening { rows, head })
}

/// The usn of a row.
fn row_usn(unsent: bool) -> i64
    ensures { result ≡ row_usn unsent }
{
    if unsent { -1 } else { 0 }
}

/// The rows, stamped with this second, with this usn.
fn opening_rows(alloc: Global, second: i64, usn: i64) -> Result<List<Row>, Memory>
    ensures { IfOk result (AreOpeningRows second usn) }
{
    let basic = basic(alloc, second, usn)?;
    let cloze = cloze(alloc, second, usn)?;
    let reversed = reversed(alloc, second, usn)?;
    let deck = default_deck(alloc, second, usn)?;
    let options = default_options(alloc, second, usn)?;
    let rows = vec![in alloc;
        Row::NoteType(basic),
        Row::NoteType(cloze),
        Row::NoteType(reversed),
        Row::Deck(deck),
        Row::Options(options),
    ]?;
    Ok(List::of(rows))
}

/// Deck 1.
fn default_deck(alloc: Global, second: i64, usn: i64) -> Result<Deck, Memory>
    ensures { IfOk result (IsDefaultDeck second usn) }
{
    Ok(Deck {
        id: 1,
        stamp: second,
        usn,
        name: Text::of(alloc, "Default")?,
        options: 1,
        filtered: false,
        new_today: Count { day: 0, count: 0 },
        rev_today: Count { day: 0, count: 0 },
        rest: Rest::empty(alloc)?,
    })
}

/// Options 1.
fn default_options(alloc: Global, second: i64, usn: i64) -> Result<Options, Memory>
    ensures { IfOk result (AreDefaultOptions second usn) }
{
    let mut options = Options::opening(alloc, second)?;
    options.usn = usn;
    Ok(options)
}

/// The head: its days begin with the moment's day in universal time.
fn opening_head(alloc: Global, ms: i64, unsent: bool) -> Result<Head, Memory>
    requires moment { IsClockMoment ms }
    ensures { IfOk result (IsOpeningHead ms unsent) }
{
    Ok(Head {
        crt: ms / (DAY_SECONDS * 1000) * DAY_SECONDS,
        moment: ms,
        schema: ms,
        usn: if unsent { 0 } else { 1 },
        last_sync: 0,
        conf: opening_conf(alloc)?,
        tags: List::new(alloc),
    })
}

/// The settings with which a collection opens.
pub fn opening_conf(alloc: Global) -> Result<Conf, Memory>
    ensures { IfOk result IsOpeningConf }
{
    Ok(Conf {
        new_spread: 0,
        collapse: 1_200,
        day_learn_first: false,
        next_pos: 1,
        last_unburied: 0,
        rest: Rest::empty(alloc)?,
    })
}
