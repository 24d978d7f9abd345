//! The table of the registers and frame words, and what its seats know.
use atomic_table::{Seat, Table, TableRule};
use dxc_num::{Leg, Middle};
use fabric_core::{Mover, Size, Worker};
use std::alloc::Global;

/// What a step of the mover is told beside its word. It stands in no slot.
#[derive(Clone, Copy)]
pub struct Aim {
    pub leg: Leg,
    pub middle: Middle,
}

/// What a seat knows. No value of it is made.
pub enum View {
    /// Nothing.
    Idle,
    /// The mover's part, and how many workers have their seats.
    AsMover { size: Size, dealt: u16, part: Mover },
    /// A worker's part.
    AsWorker { size: Size, part: Worker },
}

/// The rule of the table: its words and what all seats know are a state that the core's events reach.
pub struct FabricRule;

impl TableRule<Aim, View, Size> for FabricRule {
    ghost use Rattle.fabric_words.specs.Tied.{Tied, first_view};

    ghost holds = { Tied };

    ghost first = { first_view };
}

pub(crate) type Board = Table<Aim, View, Size, FabricRule, Global>;

pub(crate) type Token = Seat<Aim, View>;
