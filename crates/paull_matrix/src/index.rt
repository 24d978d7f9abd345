ghost use Rattle.std.specs.Prelude.{◌≡◌, ◌≢◌, ◌≤◌, ◌<◌, ◌%◌, ◌↔◌, ℕ, IsBitSet, None, Some, IfOk};
ghost use Rattle.paull_matrix.specs.Middles.{IsSetOf};
ghost use Rattle.paull_matrix.specs.Indexes.{Cells, HasFreeSets, cell_of, leg_in, no_cells, with_cell, word_of};

use crate::cell::Cell;
use crate::middle_set::MiddleSet;
use dxc_causes::NoMemory;
use dxc_num::{Leg, Middle, Shape};
use std::alloc::Global;
use std::marker::Model;

/// The legs of each row, or of each column, by middle, with the middles that are free there: two words of 64 bits a module.
#[derive(Drop)]
pub struct Index {
    shape: Shape,
    legs: Vec<Cell>,
    free: Vec<u64>,
}

impl Model for Index {
    ghost Value = { Cells };

    ghost view = { λ x. record { shape = x.shape; legs = x.legs.items } };

    ghost invariant = { λ x. HasFreeSets x.shape x.legs.items x.free.items };
}

// The place of the cell of a module and a middle.
#[inline(always)]
fn cell(shape: Shape, module: u16, middle: Middle) -> usize
    requires { («module» < shape.modules) × (middle.0 ≤ shape.slots) }
    ensures { result ≡ cell_of shape «module» middle.0 }
{
    module as usize * (shape.slots() as usize + 1) + middle.0 as usize
}

// The place of the word that tells whether a middle is free in a module.
#[inline(always)]
fn word(module: u16, middle: Middle) -> usize
    ensures { result ≡ word_of «module» middle.0 }
{
    module as usize * 2 + middle.0 as usize / 64
}

// A word whose middles are all free.
#[inline(always)]
fn all_free() -> u64
    ensures { (k : ℕ) → k < 64 → IsBitSet result k }
{
    u64::MAX
}

// A word once its middle is free.
#[inline(always)]
fn freed(word: u64, middle: Middle) -> u64
    ensures here { IsBitSet result (middle.0 % 64) }
    ensures others { (k : ℕ) → k < 64 → k ≢ middle.0 % 64 → (IsBitSet result k ↔ IsBitSet word k) }
{
    word | (1u64 << (middle.0 % 64))
}

// A word once its middle is taken.
#[inline(always)]
fn taken(word: u64, middle: Middle) -> u64
    ensures here { ¬ IsBitSet result (middle.0 % 64) }
    ensures others { (k : ℕ) → k < 64 → k ≢ middle.0 % 64 → (IsBitSet result k ↔ IsBitSet word k) }
{
    word & !(1u64 << (middle.0 % 64))
}

impl Index {
    pub fn new(alloc: Global, shape: Shape) -> Result<Index, NoMemory>
        ensures { IfOk result (λ x. x ≡ no_cells shape) }
    {
        let modules = shape.modules() as usize;
        let legs = Vec::from_elem(alloc, Cell::free(), modules * (shape.slots() as usize + 1))?;
        let free = Vec::from_elem(alloc, all_free(), modules * 2)?;
        Ok(Index { shape, legs, free })
    }

    /// The leg of a module on a middle.
    pub fn get(&self, module: u16, middle: Middle) -> Option<Leg>
        requires { («module» < self.now.shape.modules) × (middle.0 ≤ self.now.shape.slots) }
        ensures { result ≡ leg_in self.now «module» middle.0 }
    {
        self.legs[cell(self.shape, module, middle)].get()
    }

    /// The middles on which no leg of the module is.
    pub fn free(&self, module: u16) -> MiddleSet
        requires { «module» < self.now.shape.modules }
        ensures { IsSetOf (λ k. leg_in self.now «module» k ≡ None) self.now.shape.slots result }
    {
        let low = module as usize * 2;
        MiddleSet::of_words(self.free[low], self.free[low + 1])
    }

    /// Puts a leg on a middle.
    #[inline(always)]
    pub fn put(&mut self, module: u16, middle: Middle, leg: Leg)
        requires { («module» < self.old.shape.modules) × (middle.0 ≤ self.old.shape.slots) }
        ensures { self.new ≡ with_cell «module» middle.0 (Some leg) self.old }
    {
        self.legs[cell(self.shape, module, middle)] = Cell::of(leg);
        let at = word(module, middle);
        self.free[at] = taken(self.free[at], middle);
    }

    /// Takes away what is on a middle.
    #[inline(always)]
    pub fn take(&mut self, module: u16, middle: Middle)
        requires { («module» < self.old.shape.modules) × (middle.0 ≤ self.old.shape.slots) }
        ensures { self.new ≡ with_cell «module» middle.0 None self.old }
    {
        self.legs[cell(self.shape, module, middle)] = Cell::free();
        let at = word(module, middle);
        self.free[at] = freed(self.free[at], middle);
    }

    /// Puts a leg of the module that is on one middle on another one. The shape is the index's own, which the caller has at hand.
    #[inline(always)]
    pub fn turn(&mut self, shape: Shape, module: u16, from: Middle, to: Middle, leg: Leg)
        requires same { shape ≡ self.old.shape }
        requires inside { («module» < self.old.shape.modules) × (from.0 ≤ self.old.shape.slots)
            × (to.0 ≤ self.old.shape.slots) }
        ensures { self.new ≡ with_cell «module» to.0 (Some leg)
            (with_cell «module» from.0 None self.old) }
    {
        let left = cell(shape, module, from);
        let reached = cell(shape, module, to);
        self.legs[left] = Cell::free();
        self.legs[reached] = Cell::of(leg);
        let from_at = word(module, from);
        self.free[from_at] = freed(self.free[from_at], from);
        let to_at = word(module, to);
        self.free[to_at] = taken(self.free[to_at], to);
    }

    /// Takes out every leg.
    pub fn clear(&mut self)
        ensures { self.new ≡ no_cells self.old.shape }
    {
        self.legs.as_mut_slice().fill(Cell::free());
        self.free.as_mut_slice().fill(all_free());
    }
}
