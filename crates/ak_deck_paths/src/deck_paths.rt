// What is above a path, and where the decks of a subtree go.
ghost use Rattle.std.specs.Prelude.{◌≡◌, ◌++◌, true, drop, length, IfOk, OnOk};
ghost use Rattle.ak_base.specs.Paths.{is_in_subtree};
ghost use Rattle.ak_deck_paths.specs.DeckPaths.{is_below, missing_above, missing_one, moved_deck, moved_decks, moved_path};

use crate::held_decks::any_has_path;
use ak_base::{Deck, List, Memory, Text, is_in_subtree, next_part};
use std::alloc::Global;

/// The paths above a path, from the top, that none of the decks has.
pub(crate) fn missing_above(alloc: Global, decks: &[Deck], path: &str) -> Result<List<Text>, Memory>
    ensures { IfOk result (λ missing. missing ≡ missing_above decks.now path.now) }
{
    let mut missing = List::new(alloc);
    let mut above = String::new(alloc);
    let mut rest = path;
    while let Some((part, below)) = next_part(rest) {
        above.push_str(part)?;
        take_missing(alloc, decks, above.as_str(), &mut missing)?;
        above.push_str("::")?;
        rest = below;
    }
    Ok(missing)
}

/// Adds the path, if none of the decks has it.
fn take_missing(
    alloc: Global,
    decks: &[Deck],
    path: &str,
    missing: &mut List<Text>,
) -> Result<(), Memory>
    ensures { OnOk result (missing.new ≡ missing.old ++ missing_one decks.now path.now) }
{
    if !any_has_path(decks, path) {
        let copy = Text::of(alloc, path)?;
        missing.push(copy)?;
    }
    Ok(())
}

/// Whether a path is below another.
pub(crate) fn is_below(root: &str, path: &str) -> bool
    ensures { result ≡ is_below root.now path.now }
{
    is_in_subtree(root, path) && root != path
}

/// The decks that are in the subtree of the old path, with the new one in its place.
pub(crate) fn moved_decks(
    alloc: Global,
    decks: &[Deck],
    old: &str,
    new: &str,
) -> Result<List<Deck>, Memory>
    ensures { IfOk result (λ moved. moved ≡ moved_decks old.now new.now decks.now) }
{
    let mut moved = List::new(alloc);
    for deck in decks {
        if is_in_subtree(old, deck.name.as_str()) {
            moved.push(moved_deck(alloc, deck, old, new)?)?;
        }
    }
    Ok(moved)
}

/// The deck, which is in the subtree of the old path, with the new one in its place.
fn moved_deck(alloc: Global, deck: &Deck, old: &str, new: &str) -> Result<Deck, Memory>
    requires { is_in_subtree old.now deck.now.name ≡ true }
    ensures { IfOk result (λ moved. moved ≡ moved_deck old.now new.now deck.now) }
{
    let mut moved = deck.copy()?;
    moved.name = moved_path(alloc, deck.name.as_str(), old, new)?;
    Ok(moved)
}

/// The path, which is in the subtree of the old one, with the new one in its place.
fn moved_path(alloc: Global, path: &str, old: &str, new: &str) -> Result<Text, Memory>
    requires { is_in_subtree old.now path.now ≡ true }
    ensures { IfOk result (λ moved. moved ≡ moved_path old.now new.now path.now) }
{
    let mut moved = String::from_str(alloc, new)?;
    moved.push_str(behind(path, old))?;
    Ok(Text::from(moved))
}

/// What comes after the old path in a path of its subtree.
fn behind<'a>(path: &'a str, old: &str) -> &'a str
    requires { is_in_subtree old.now path.now ≡ true }
    ensures { result.now ≡ drop (length old.now) path.now }
{
    match path.strip_prefix(old) {
        Some(rest) => rest,
        None => unreachable!(),
    }
}
