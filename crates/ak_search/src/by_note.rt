// Whether an expression asks for notes alone, so that it does the same of all cards of a note.
ghost use Rattle.std.specs.Prelude.{◌≡◌};
ghost use Rattle.ak_search.specs.ByNote.{ask_notes_alone, asks_note_alone};
ghost use Rattle.ak_search.specs.Grammar.{pieces_in};

use crate::Term;
use crate::tokens::{Piece, Token};

/// Whether each term of the tokens asks of a card for its note, the type of that and its id, and for nothing else.
pub(crate) fn ask_notes_alone(tokens: &[Token]) -> bool
    ensures { result ≡ ask_notes_alone (pieces_in tokens.now) }
{
    let mut rest = tokens;
    while let Some((token, others)) = rest.split_first() {
        match &token.piece {
            Piece::Test(_, term) => {
                if !asks_note_alone(term) {
                    return false;
                }
            }
            Piece::Open(_) => {}
            Piece::Close => {}
            Piece::Or => {}
            Piece::And => {}
            Piece::BadValue => {}
            Piece::OpenQuote => {}
        }
        rest = others;
    }
    true
}

/// Whether the term asks for no more.
fn asks_note_alone(term: &Term) -> bool
    ensures { result ≡ asks_note_alone term.now }
{
    match term {
        Term::Contains(_) => true,
        Term::Word(_) => true,
        Term::Field(_, _) => true,
        Term::Tag(_) => true,
        Term::Untagged => true,
        Term::NoteType(_) => true,
        Term::Edited(_) => true,
        Term::NoteIds(_) => true,
        _ => false,
    }
}
