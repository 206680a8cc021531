ghost use Rattle.std.specs.Prelude.{◌≡◌, [], ◌∷◌, ◌++◌, IfOk, OnOk, OnErr};

use crate::Memory;
use std::alloc::Global;
use std::marker::Model;

/// A list of the collection's values, seen as the list of them.
#[derive(Debug, Drop)]
pub struct List<T> {
    elements: Vec<T>,
}

impl<T> Model for List<T> {
    ghost use Rattle.std.specs.Prelude.{List as Sequence};

    ghost Value = { Sequence T };

    ghost view = { λ list. list.elements.items };
}

impl<T> List<T> {
    /// The empty list. It takes no memory yet.
    pub fn new(alloc: Global) -> List<T>
        ensures { result ≡ [] }
    {
        List {
            elements: Vec::new(alloc),
        }
    }

    /// The list of these items, in their order.
    pub fn of(items: Vec<T>) -> List<T>
        ensures { result ≡ items.items }
    {
        List { elements: items }
    }

    /// The items, in their order.
    pub fn into_vec(self) -> Vec<T>
        ensures { result.items ≡ self }
    {
        let List { elements } = self;
        elements
    }

    /// The allocator that a copy takes its memory from.
    pub fn allocator(&self) -> Global {
        *self.elements.allocator()
    }

    /// The items, in their order.
    pub fn as_slice(&self) -> &[T]
        ensures { result.now ≡ self.now }
    {
        self.elements.as_slice()
    }
}

impl<T: Drop> List<T> {
    /// Adds an item at the end. If memory is out, the list stays as it was.
    pub fn push(&mut self, item: T) -> Result<(), Memory>
        ensures ok { OnOk result (self.new ≡ self.old ++ item ∷ []) }
        ensures err { OnErr result (self.new ≡ self.old) }
    {
        self.elements.push(item)?;
        Ok(())
    }
}

impl<T: Copy> List<T> {
    /// An equal list of its own.
    pub fn copy(&self) -> Result<List<T>, Memory>
        ensures { IfOk result (λ made. made ≡ self.now) }
    {
        let elements = Vec::from_slice(self.allocator(), self.as_slice())?;
        Ok(List { elements })
    }
}

impl<T: PartialEq> PartialEq for List<T> {
    ghost use Rattle.std.specs.Cmp.Lexicographic.{pointwise, lists_per};

    ghost eq = { pointwise T.eq };

    ghost laws = { lists_per T.laws };

    fn eq(&self, other: &List<T>) -> bool {
        self.elements.as_slice() == other.elements.as_slice()
    }
}

/// An equal list of its own, each item copied by `copy`.
pub fn copy_each<T: Drop, F: Fn(&T) -> Result<T, Memory>>(
    items: &List<T>,
    copy: F,
) -> Result<List<T>, Memory>
    requires callable { F.IsAlwaysCallable copy }
    requires equal { (item : _) (result : _) → F.post copy item result → IfOk result (λ made. made ≡ item.now) }
    ensures { IfOk result (λ made. made ≡ items.now) }
{
    let mut made = List::new(items.allocator());
    for item in items.as_slice() {
        made.push(copy(item)?)?;
    }
    Ok(made)
}
