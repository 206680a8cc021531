ghost use Rattle.std.specs.Prelude.{◌≡◌};
ghost use Rattle.ak_desk_runs.specs.LineOutcomes.{GivesWord, takes_word};
ghost use Rattle.ak_io.specs.Arrivals.{GivesNext, IsClockMoment};

use ak_desk_lines::Turn;
use ak_io::{Chance, Clock, Line};

/// Takes what a line takes: a moment, and a word of chance if it begins with `note` or `answer`.
pub(crate) fn take_turn<C: Clock, R: Chance>(
    line: &Line,
    done: u64,
    clock: &mut C,
    chance: &mut R,
) -> Turn
    ensures moment { GivesNext (C.to_come clock.old) (C.to_come clock.new) result.at }
    ensures range { IsClockMoment result.at }
    ensures word { GivesWord (takes_word line.now) (R.to_come chance.old) (R.to_come chance.new) result.chance }
    ensures done { result.done ≡ done }
{
    let at = clock.now();
    let chance = if takes_word(line) { chance.word() } else { 0 };
    Turn { at, chance, done }
}

/// Whether a line takes a word of chance. It does so before it is read, and if it is refused too.
fn takes_word(line: &Line) -> bool
    ensures { result ≡ takes_word line.now }
{
    match line {
        Line::Whole(bytes) => {
            let bytes = bytes.as_slice();
            bytes.starts_with(b"note") || bytes.starts_with(b"answer")
        }
        Line::TooLong | Line::PastInput => false,
    }
}
