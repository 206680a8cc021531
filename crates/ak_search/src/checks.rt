// The first fault of the tokens of a search text.
ghost use Rattle.std.specs.Prelude.{◌≡◌, ◌+◌, ◌≤◌, ◌<◌, ◌^◌, false, length};
ghost use Rattle.ak_search.specs.Grammar.{pieces_in, closes, begins_part, begins_close, ends_part, depth_behind, lone_fault, group_fault, fault_at, fault_in};

use crate::SearchFault;
use crate::tokens::{Piece, Token};

/// The fault with the least place.
pub(crate) fn first_fault(tokens: &[Token]) -> Option<SearchFault>
    ensures { result ≡ fault_in 0 false tokens.now }
{
    let mut depth = 0usize;
    let mut before = false;
    let mut rest = tokens;
    while let Some((token, others)) = rest.split_first() {
        match fault_at(depth, before, token, others) {
            Some(fault) => return Some(fault),
            None => {}
        }
        depth = depth_behind(depth, &token.piece);
        before = ends_part(&token.piece);
        rest = others;
    }
    None
}

/// The fault of a token, if it has one, by how many groups are open before it.
fn fault_at(depth: usize, before: bool, token: &Token, rest: &[Token]) -> Option<SearchFault>
    ensures { result ≡ fault_at depth before token.now.place token.now.piece (pieces_in rest.now) }
{
    match token.piece {
        Piece::Test(_, _) => None,
        Piece::BadValue => Some(SearchFault::BadValue(token.place)),
        Piece::Open(_) => group_fault(depth, token.place, rest),
        Piece::Close => {
            if depth == 0 {
                Some(SearchFault::EmptyGroup(token.place))
            } else {
                None
            }
        }
        Piece::Or => lone_fault(before, token.place, rest),
        Piece::And => lone_fault(before, token.place, rest),
        Piece::OpenQuote => Some(SearchFault::OpenQuote(token.place)),
    }
}

/// Of a group that opens: never closed, empty, or the 33rd in one another.
fn group_fault(depth: usize, place: u64, rest: &[Token]) -> Option<SearchFault>
    ensures { result ≡ group_fault depth place (pieces_in rest.now) }
{
    if !closes(rest) {
        return Some(SearchFault::OpenGroup(place));
    }
    if begins_close(rest) {
        return Some(SearchFault::EmptyGroup(place));
    }
    if depth < 32 {
        return None;
    }
    Some(SearchFault::TooDeep(place))
}

/// Whether the rest closes the group that opens before it.
fn closes(tokens: &[Token]) -> bool
    ensures { result ≡ closes 0 (pieces_in tokens.now) }
{
    let mut depth = 0usize;
    for token in tokens {
        match token.piece {
            Piece::Open(_) => depth += 1,
            Piece::Close => {
                if depth == 0 {
                    return true;
                }
                depth -= 1;
            }
            _ => {}
        }
    }
    false
}

/// Whether the rest begins with a `)`.
fn begins_close(tokens: &[Token]) -> bool
    ensures { result ≡ begins_close (pieces_in tokens.now) }
{
    match tokens {
        [] => false,
        [token, ..] => match token.piece {
            Piece::Close => true,
            _ => false,
        },
    }
}

/// Of an `or` or `and`: it needs a term or group on both sides.
fn lone_fault(before: bool, place: u64, rest: &[Token]) -> Option<SearchFault>
    ensures { result ≡ lone_fault before place (pieces_in rest.now) }
{
    if before && begins_part(rest) {
        return None;
    }
    Some(SearchFault::LoneOr(place))
}

/// Whether a term or group begins the rest.
fn begins_part(tokens: &[Token]) -> bool
    ensures { result ≡ begins_part (pieces_in tokens.now) }
{
    match tokens {
        [] => false,
        [token, ..] => match token.piece {
            Piece::Test(_, _) | Piece::BadValue | Piece::Open(_) | Piece::OpenQuote => true,
            Piece::Close | Piece::Or | Piece::And => false,
        },
    }
}

/// How many groups are open after the piece.
fn depth_behind(depth: usize, piece: &Piece) -> usize
    requires { depth < 2 ^ 63 }
    ensures { result ≡ depth_behind depth piece.now }
{
    match piece {
        Piece::Open(_) => depth + 1,
        Piece::Close => depth.saturating_sub(1),
        _ => depth,
    }
}

/// Whether a term or group ends with the piece.
fn ends_part(piece: &Piece) -> bool
    ensures { result ≡ ends_part piece.now }
{
    match piece {
        Piece::Test(_, _) | Piece::BadValue | Piece::Close | Piece::OpenQuote => true,
        Piece::Open(_) | Piece::Or | Piece::And => false,
    }
}
