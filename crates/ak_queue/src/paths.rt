// The path of a deck, cut into its parts.
ghost use Rattle.std.specs.Prelude.{◌≡◌, ◌++◌, map, IfOk, OnOk};
ghost use Rattle.std.specs.String.{string_bytes};
ghost use Rattle.ak_base.specs.Paths.{parts_of, are_first_parts};
ghost use Rattle.ak_queue.specs.Orders.{parts_cmp};

use ak_base::{Memory, path_parts};
use std::alloc::Global;
use std::cmp::Ordering;
use std::marker::Model;

/// The parts of a deck's path, from the top. Paths go part by part, each by its bytes.
#[derive(Debug, Drop)]
pub(crate) struct Path {
    parts: Vec<String>,
}

impl Model for Path {
    ghost use Rattle.std.specs.Prelude.{ℕ, List, map};
    ghost use Rattle.std.specs.String.{string_bytes};

    ghost Value = { List (List ℕ) };

    ghost view = { λ path. map (λ part. string_bytes part) path.parts.items };
}

impl Path {
    /// The path that the name of a deck is.
    pub(crate) fn of(alloc: Global, name: &str) -> Result<Path, Memory>
        ensures { IfOk result (λ path. path ≡ parts_of name.now) }
    {
        let parts = path_parts(alloc, name)?;
        let parts = owned(alloc, parts.as_slice())?;
        Ok(Path { parts })
    }

    /// Whether the other path is in the subtree of this one.
    pub(crate) fn leads_to(&self, other: &Path) -> bool
        ensures { result ≡ are_first_parts self.now other.now }
    {
        are_first_parts(self.parts.as_slice(), other.parts.as_slice())
    }

    /// An equal path of its own.
    pub(crate) fn copy(&self) -> Result<Path, Memory>
        ensures { IfOk result (λ made. made ≡ self.now) }
    {
        let parts = copies(*self.parts.allocator(), self.parts.as_slice())?;
        Ok(Path { parts })
    }
}

/// Texts of their own with the bytes of these.
fn owned(alloc: Global, texts: &[&str]) -> Result<Vec<String>, Memory>
    ensures { IfOk result (λ made. map (λ part. string_bytes part) made.items ≡ map (λ text. text.now) texts.now) }
{
    let mut made = Vec::new(alloc);
    for text in texts {
        let part = String::from_str(alloc, text)?;
        made.push(part)?;
    }
    Ok(made)
}

/// Texts of their own with the bytes of these.
fn copies(alloc: Global, texts: &[String]) -> Result<Vec<String>, Memory>
    ensures { IfOk result (λ made. map (λ part. string_bytes part) made.items ≡ map (λ part. string_bytes part) texts.now) }
{
    let mut made = Vec::new(alloc);
    for text in texts {
        let part = text.clone()?;
        made.push(part)?;
    }
    Ok(made)
}

/// Whether some parts are the first ones of others.
fn are_first_parts(roots: &[String], parts: &[String]) -> bool
    ensures { result ≡ are_first_parts (map (λ part. string_bytes part) roots.now) (map (λ part. string_bytes part) parts.now) }
{
    match (roots.split_first(), parts.split_first()) {
        (None, _) => true,
        (Some(_), None) => false,
        (Some((root, roots)), Some((part, parts))) => {
            root.as_str() == part.as_str() && are_first_parts(roots, parts)
        }
    }
}

impl PartialEq for Path {
    ghost use Rattle.std.specs.Ordering.{eq_by_cmp};
    ghost use Rattle.std.specs.Cmp.{partial_equiv_from_equiv, eq_by_cmp_equiv};
    ghost use Rattle.ak_queue.specs.Orders.{parts_cmp, parts_total};

    ghost eq = { eq_by_cmp parts_cmp };

    ghost laws = { partial_equiv_from_equiv (eq_by_cmp_equiv parts_total) };

    fn eq(&self, other: &Path) -> bool {
        self.cmp(other) == Ordering::Equal
    }
}

impl Eq for Path {
    ghost use Rattle.std.specs.Cmp.{eq_by_cmp_equiv};
    ghost use Rattle.ak_queue.specs.Orders.{parts_total};

    ghost laws = { eq_by_cmp_equiv parts_total };
}

impl PartialOrd for Path {
    ghost use Rattle.std.specs.Ordering.{as_partial_cmp};
    ghost use Rattle.std.specs.Cmp.Rules.{comparing};
    ghost use Rattle.std.proofs.Common.{rules};
    ghost use Rattle.ak_queue.specs.Orders.{parts_cmp, parts_total};

    ghost partial_cmp = { as_partial_cmp parts_cmp };

    ghost laws = { Prim.search (comparing, rules, parts_total) };

    fn partial_cmp(&self, other: &Path) -> Option<Ordering> {
        Some(self.cmp(other))
    }
}

impl Ord for Path {
    ghost use Rattle.std.specs.Cmp.Rules.{comparing};
    ghost use Rattle.std.proofs.Common.{rules};
    ghost use Rattle.ak_queue.specs.Orders.{parts_cmp, parts_total};

    ghost cmp = { parts_cmp };

    ghost total = { parts_total };

    ghost matches_partial_cmp = { Prim.search (comparing, rules) };

    ghost matches_eq = { Prim.search (comparing, rules) };

    fn cmp(&self, other: &Path) -> Ordering {
        compared(self.parts.as_slice(), other.parts.as_slice())
    }
}

/// The order of two paths.
fn compared(parts: &[String], others: &[String]) -> Ordering
    ensures { result ≡ parts_cmp (map (λ part. string_bytes part) parts.now) (map (λ part. string_bytes part) others.now) }
{
    match (parts.split_first(), others.split_first()) {
        (None, None) => Ordering::Equal,
        (None, Some(_)) => Ordering::Less,
        (Some(_), None) => Ordering::Greater,
        (Some((part, parts)), Some((other, others))) => match part.as_str().cmp(other.as_str()) {
            Ordering::Equal => compared(parts, others),
            unequal => unequal,
        },
    }
}
