ghost use Rattle.std.specs.Prelude.{◌≡◌};
ghost use Rattle.ak_wire.specs.Words.{word_text, word_of};

use ak_messages::Word;

/// The word as it is written in a reply.
pub fn word_text(word: Word) -> &'static str
    ensures { result.now ≡ word_text word }
{
    match word {
        Word::Ok => "ok",
        Word::Key => "key",
        Word::Base => "base",
        Word::NoSession => "no session",
        Word::Step => "step",
        Word::Usn => "usn",
        Word::Sequence => "sequence",
        Word::Rows => "rows",
        Word::Row => "row",
        Word::Newer => "newer",
        Word::Keeper => "keeper",
        Word::Memory => "memory",
        Word::Head => "head",
        Word::Route => "route",
        Word::Method => "method",
        Word::Length => "length",
        Word::Large => "large",
        Word::Compressed => "compressed",
        Word::Headers => "headers",
        Word::Cut => "cut",
        Word::Body => "body",
    }
}

/// The word that is written so, if there is one.
pub(crate) fn word_of(text: &str) -> Option<Word>
    ensures { result ≡ word_of text.now }
{
    match text {
        "ok" => Some(Word::Ok),
        "key" => Some(Word::Key),
        "base" => Some(Word::Base),
        "no session" => Some(Word::NoSession),
        "step" => Some(Word::Step),
        "usn" => Some(Word::Usn),
        "sequence" => Some(Word::Sequence),
        "rows" => Some(Word::Rows),
        "row" => Some(Word::Row),
        "newer" => Some(Word::Newer),
        "keeper" => Some(Word::Keeper),
        "memory" => Some(Word::Memory),
        "head" => Some(Word::Head),
        "route" => Some(Word::Route),
        "method" => Some(Word::Method),
        "length" => Some(Word::Length),
        "large" => Some(Word::Large),
        "compressed" => Some(Word::Compressed),
        "headers" => Some(Word::Headers),
        "cut" => Some(Word::Cut),
        "body" => Some(Word::Body),
        _ => None,
    }
}
