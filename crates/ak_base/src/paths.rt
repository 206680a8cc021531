// Paths of decks and tags: parts with `::` between them.
ghost use Rattle.std.specs.Prelude.{◌≡◌, ◌<◌, length, map, IfOk, IfSome, IfNone};
ghost use Rattle.ak_base.specs.Paths.{IsFirstPart, IsOnePart, parts_of, is_in_subtree};

use crate::Memory;
use crate::cuts::cut;
use std::alloc::Global;

/// Whether a path is in the subtree of another: it is that path, or below it. It takes no memory.
pub fn is_in_subtree(root: &str, path: &str) -> bool
    ensures { result ≡ is_in_subtree root.now path.now }
{
    match (next_part(root), next_part(path)) {
        (None, None) => root == path,
        (None, Some((part, _))) => root == part,
        (Some(_), None) => false,
        (Some((first, roots)), Some((part, parts))) => {
            first == part && is_in_subtree(roots, parts)
        }
    }
}

/// The parts of a path, from the top.
pub fn path_parts(alloc: Global, path: &str) -> Result<Vec<&str>, Memory>
    ensures { IfOk result (λ parts. map (λ part. part.now) parts.items ≡ parts_of path.now) }
{
    let mut parts = Vec::new(alloc);
    let mut rest = path;
    while let Some((part, below)) = next_part(rest) {
        parts.push(part)?;
        rest = below;
    }
    parts.push(rest)?;
    Ok(parts)
}

/// The first part of a path and the parts below it; None if the path is one part.
pub fn next_part(path: &str) -> Option<(&str, &str)>
    ensures first { IfSome result (λ cut. IsFirstPart path.now cut.0.now cut.1.now) }
    ensures shorter { IfSome result (λ cut. length cut.1.now < length path.now) }
    ensures one { IfNone result (IsOnePart path.now) }
{
    match cut(path, "::") {
        Some((part, below)) => Some((part, below)),
        None => None,
    }
}
