ghost use Rattle.std.specs.Prelude.{◌≡◌, map};
ghost use Rattle.ak_any_lines.specs.AnyEnds.{AppliesToAny, EndsAnyAt};
ghost use Rattle.ak_any_lines.specs.LineResults.{RefusalCause, by_desk};
ghost use Rattle.ak_desk.specs.Desks.{IsIdle};
ghost use Rattle.ak_desk_language.specs.AnyLines.{IsAnyInRange};
ghost use Rattle.ak_study.specs.DayStarts.{IsInDay};

use crate::filtered_lines::{build_deck, empty_deck, make_deck};
use crate::single_lines::obey_single;
use ak_desk::Desk;
use ak_desk_language::AnyLine;
use ak_desk_lines::Turn;
use ak_desk_texts::{DeskAnswer, LineRefusal};
use ak_edit::DeskFault;
use ak_filters::FieldFilter;
use ak_keep::Keeper;

/// Does what a line says at a desk, and gives its answer. A line about filtered decks that is refused leaves all as it was. Of any
/// other line, what came before it stays where it is refused: `drop` leaves emptied what it emptied, and `move` and an answer leave
/// the cards at home. Beyond that it leaves what `ak_desk_lines::obey` does.
pub fn obey_any<K: Keeper>(
    desk: &mut Desk<K>,
    line: AnyLine,
    turn: Turn,
    filters: &mut Vec<Box<dyn FieldFilter>>,
) -> Result<DeskAnswer, LineRefusal>
    requires idle { IsIdle (K.keeping desk.old.keeper.now) }
    requires moment { IsInDay turn.at }
    requires range { IsAnyInRange line }

    // What the line leaves and is answered, or why it is refused.
    ensures ends { EndsAnyAt K.Lookup line turn desk.old desk.new result }

    // A page applies the filters, `mute` drops one, other lines do nothing with them.
    ensures filters { AppliesToAny line (K.keeping desk.old.keeper.now)
        (map (λ b. meaning b) filters.old.items) (map (λ b. meaning b) filters.new.items) result }

    // Whether a head is held, and whether there is a mark, stays.
    ensures stays { (K.keeping desk.new.keeper.now).headed ≡ (K.keeping desk.old.keeper.now).headed }
    ensures cause { RefusalCause (K.health desk.old.keeper.now) (K.health desk.new.keeper.now) result }
    ensures lent { (desk.new.keeper.ghost_name ≡ desk.old.keeper.ghost_name)
        × (desk.new.undo.ghost_name ≡ desk.old.undo.ghost_name) }
{
    match line {
        AnyLine::Single(line) => by_desk(obey_single(desk, line, turn, filters)),
        AnyLine::Filter {
            name,
            search,
            limit,
            order,
        } => make_deck(desk, &name, &search, limit, order, turn),
        AnyLine::Build(deck) => build_deck(desk, deck, turn),
        AnyLine::Empty(deck) => empty_deck(desk, deck, turn),
    }
}

/// The answer of a line that is one call. Its refusal is the desk's.
fn by_desk(made: Result<DeskAnswer, DeskFault>) -> Result<DeskAnswer, LineRefusal>
    ensures { result ≡ by_desk made }
{
    match made {
        Ok(answer) => Ok(answer),
        Err(fault) => Err(LineRefusal::Desk(fault)),
    }
}
