//! Lists of items.
ghost use Rattle.std.specs.Prelude.{◌≡◌, [], ◌∷◌, ◌++◌, OnErr, OnOk};

use std::alloc::AllocError;
use std::marker::Model;

/// A list of items. A contract sees it as that list.
///
/// Made from a vector by `List::from`, which keeps its memory and takes none.
#[derive(Debug, Drop)]
pub struct List<T> {
    items: Vec<T>,
}

impl<T> Model for List<T> {
    ghost Value = { Rattle.std.specs.Prelude.List T };

    ghost view = { λ l. l.items.items };
}

impl<T> From<Vec<T>> for List<T> {
    ghost from_gives = { λ items l. l ≡ items.items };

    fn from(items: Vec<T>) -> Self {
        List { items }
    }
}

impl<T> List<T> {
    /// The items as a slice.
    pub fn as_slice(&self) -> &[T]
        ensures { result.now ≡ self.now }
    {
        self.items.as_slice()
    }

    /// Gives the vector back. Takes no memory.
    #[must_use]
    pub fn into_vec(self) -> Vec<T>
        ensures { result.items ≡ self }
    {
        self.items
    }
}

impl<T: Drop> List<T> {
    /// Adds an item behind the others. The only error is lack of memory, and then the list has the items that it had before.
    pub fn push(&mut self, item: T) -> Result<(), AllocError>
        ensures added { OnOk result (self.new ≡ self.old ++ item ∷ []) }
        ensures err { OnErr result (self.new ≡ self.old) }
    {
        self.items.push(item)?;
        Ok(())
    }

    /// Drops all items. It can't fail. The memory is kept for later ones, which no clause says.
    pub fn clear(&mut self)
        ensures { self.new ≡ [] }
    {
        self.items.clear();
    }
}

impl<T: Copy> List<T> {
    /// Adds copies of these items behind the others. The only error is lack of memory, and then none was added: the list has
    /// the items that it had before.
    pub fn extend_from_slice(&mut self, items: &[T]) -> Result<(), AllocError>
        ensures added { OnOk result (self.new ≡ self.old ++ items.now) }
        ensures err { OnErr result (self.new ≡ self.old) }
    {
        self.items.extend_from_slice(items)
    }
}
