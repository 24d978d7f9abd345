ghost use Rattle.std.specs.Prelude.{◌≡◌, ◌++◌, ◌∷◌, ◌<◌, List, [], length, map, replicate, slice_index_or, slice_set, take, MatchResult, IfOk};

use dxc_causes::NoMemory;
use std::alloc::Global;
use std::marker::Model;

/// A list that the core can grow and change in place. Contracts see its items.
#[derive(Drop)]
pub struct Row<T: Drop> {
    items: Vec<T>,
}

impl<T: Drop> Model for Row<T> {
    ghost Value = { List T };

    ghost view = { λ r. r.items.items };
}

impl<T: Drop> Row<T> {
    /// An empty row. It takes no memory yet.
    pub fn new(alloc: Global) -> Row<T>
        ensures { result ≡ [] }
    {
        Row {
            items: Vec::new(alloc),
        }
    }

    /// How many items there are.
    pub fn len(&self) -> usize
        ensures { result ≡ length self.now }
    {
        self.items.len()
    }

    /// Appends an item. After want of memory the row is as before.
    pub fn push(&mut self, item: T) -> Result<(), NoMemory>
        ensures { MatchResult result (λ _. self.new ≡ self.old ++ item ∷ [])
            (λ _. self.new ≡ self.old) }
    {
        match self.items.push(item) {
            Ok(()) => Ok(()),
            Err(failed) => Err(NoMemory::from(failed)),
        }
    }

    /// Appends two items, or none: after want of memory the row is as before.
    pub fn push_both(&mut self, first: T, second: T) -> Result<(), NoMemory>
        ensures { MatchResult result (λ _. self.new ≡ (self.old ++ first ∷ []) ++ second ∷ [])
            (λ _. self.new ≡ self.old) }
    {
        match self.items.reserve(2) {
            Ok(()) => {
                self.items.push_reserved(first);
                self.items.push_reserved(second);
                Ok(())
            }
            Err(failed) => Err(NoMemory::from(failed)),
        }
    }

    /// The item at a place, to read.
    pub fn at(&self, place: usize) -> &T
        requires { place < length self.now }
        ensures { (none : T) → slice_index_or self.now place none ≡ result.now }
    {
        &self.items[place]
    }

    /// Puts an item in the place of another.
    pub fn set(&mut self, place: usize, item: T)
        requires { place < length self.old }
        ensures { self.new ≡ slice_set self.old place item }
    {
        self.items[place] = item;
    }

    /// Keeps so many items, and removes those after them.
    pub fn truncate(&mut self, len: usize)
        ensures { self.new ≡ take len self.old }
    {
        self.items.truncate(len);
    }

    /// Removes all items.
    pub fn clear(&mut self)
        ensures { self.new ≡ [] }
    {
        self.items.clear();
    }
}

impl<T: Copy> Row<T> {
    /// A row of so many times this item.
    pub fn filled(alloc: Global, item: T, count: usize) -> Result<Row<T>, NoMemory>
        ensures { IfOk result (λ r. r ≡ replicate count item) }
    {
        let mut items = Vec::with_capacity(alloc, count)?;
        for _ in 0..count {
            items.push_reserved(item);
        }
        Ok(Row { items })
    }

    /// The item at a place.
    pub fn get(&self, place: usize) -> T
        requires { place < length self.now }
        ensures { (none : T) → slice_index_or self.now place none ≡ result }
    {
        self.items[place]
    }
}

impl<T: Drop> Row<Row<T>> {
    /// A row of so many empty rows.
    pub fn empties(alloc: Global, count: usize) -> Result<Row<Row<T>>, NoMemory>
        ensures { IfOk result (λ r. r ≡ replicate count []) }
    {
        let mut rows = Vec::with_capacity(alloc, count)?;
        for _ in 0..count {
            rows.push_reserved(Row::new(alloc));
        }
        Ok(Row { items: rows })
    }

    /// Appends an item to one of the rows. After want of memory all are as before.
    pub fn push_at(&mut self, place: usize, item: T) -> Result<(), NoMemory>
        requires { place < length self.old }
        ensures { MatchResult result (λ _. self.new ≡ slice_set self.old place
            (slice_index_or self.old place [] ++ item ∷ [])) (λ _. self.new ≡ self.old) }
    {
        self.items[place].push(item)
    }

    /// Empties each of the rows.
    pub fn clear_each(&mut self)
        ensures { self.new ≡ map (λ _. []) self.old }
    {
        for place in 0..self.items.len() {
            self.items[place].clear();
        }
    }
}
