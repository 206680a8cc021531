// Words with numbers between.
ghost use Rattle.std.specs.Prelude.{◌≡◌, ◌++◌, IfOk, decimal};
ghost use Rattle.std.specs.Fmt.{signed_decimal};

use ak_base::{Memory, Text};
use std::alloc::Global;

/// The words, and the number behind them.
pub(crate) fn number_after(alloc: Global, words: &str, number: u64) -> Result<Text, Memory>
    ensures { IfOk result (λ text. text ≡ words.now ++ decimal number) }
{
    let text = format!(in alloc; "{words}{number}")?;
    Ok(Text::from(text))
}

/// The words, and the id behind them.
pub(crate) fn id_after(alloc: Global, words: &str, id: i64) -> Result<Text, Memory>
    ensures { IfOk result (λ text. text ≡ words.now ++ signed_decimal id) }
{
    let text = format!(in alloc; "{words}{id}")?;
    Ok(Text::from(text))
}

/// The id between two texts.
pub(crate) fn id_between(alloc: Global, before: &str, id: i64, after: &str) -> Result<Text, Memory>
    ensures { IfOk result (λ text. text ≡ before.now ++ signed_decimal id ++ after.now) }
{
    let text = format!(in alloc; "{before}{id}{after}")?;
    Ok(Text::from(text))
}

/// The text, a word and the number behind it.
pub(crate) fn with_number(
    alloc: Global,
    text: &str,
    word: &str,
    number: u64,
) -> Result<Text, Memory>
    ensures { IfOk result (λ made. made ≡ text.now ++ word.now ++ decimal number) }
{
    let made = format!(in alloc; "{text}{word}{number}")?;
    Ok(Text::from(made))
}

/// The text, a word and the id behind it.
pub(crate) fn with_id(alloc: Global, text: &str, word: &str, id: i64) -> Result<Text, Memory>
    ensures { IfOk result (λ made. made ≡ text.now ++ word.now ++ signed_decimal id) }
{
    let made = format!(in alloc; "{text}{word}{id}")?;
    Ok(Text::from(made))
}

/// Two texts, one behind the other.
pub(crate) fn joined(alloc: Global, front: &str, behind: &str) -> Result<Text, Memory>
    ensures { IfOk result (λ text. text ≡ front.now ++ behind.now) }
{
    let text = format!(in alloc; "{front}{behind}")?;
    Ok(Text::from(text))
}
