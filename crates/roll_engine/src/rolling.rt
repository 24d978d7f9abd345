ghost use Rattle.std.specs.Prelude.{◌≡◌, ◌+◌, ◌≤◌, ◌↔◌, [], ◌∷◌, IsTrue, drop, length};

use arrayvec::ArrayVec;
use dxc_num::{Leg, Middle, Port};
use fabric_words::Phase;
use roll_plan::{LegOp, Move, Work};
use std::marker::Model;

mod joins;
mod next;
mod parts;

/// What comes after the work in hand.
#[derive(Clone, Copy, PartialEq, Eq)]
pub enum Behind {
    /// Nothing.
    Nothing,
    /// The parts of the legs that stand, from this output on, and then the joins of all legs of a matrix.
    PartsFrom(Port),
    /// The joins of a matrix's legs, from this output on.
    JoinsFrom(Port),
}

/// A work whose writes are being made, in order, and how many of them are made.
///
/// A cold one clears the path that the mover is about, parts each leg that stands, and joins each leg of a matrix, one by one: it has the
/// part or the join of one leg in hand.
#[derive(Drop)]
pub struct Rolling {
    work: Work,
    step: usize,
    behind: Behind,
}

impl Model for Rolling {
    ghost use Rattle.roll_engine.specs.Rollings.{RollingAt};

    ghost Value = { RollingAt };

    ghost view = { λ r. record { work = r.work; step = r.step; behind = r.behind } };
}

impl Rolling {
    ghost use Rattle.roll_plan.specs.Works.{part_writes};
    ghost use Rattle.roll_engine.specs.declared.rolling.Behind.TheVariants.{Nothing, PartsFrom};
    ghost use Rattle.roll_engine.specs.Rollings.{at_step, moves_of_first, rest_of};
    ghost use Rattle.roll_engine.specs.Cold.{IsCold, IsColdFrom, cold_start};
    ghost use Rattle.roll_engine.specs.UnderWay.{unmade};

    /// The work, of which so many writes are made.
    pub fn of(work: Work, step: usize) -> Rolling
        ensures { result ≡ record { work = work; step = step; behind = Nothing } }
    {
        Rolling {
            work,
            step,
            behind: Behind::Nothing,
        }
    }

    /// Becomes the work of one op, of which no write is made, in place.
    #[tactic(auto, using(crate::proofs::Replacing::only_set))]
    pub fn begin(&mut self, op: LegOp)
        ensures ops { self.new.work.ops.items ≡ op ∷ [] }
        ensures unmade { self.new ≡ unmade self.new.work }
    {
        // One op in the place of one costs no clearing of a place that is large.
        if self.work.ops.len() == 1 {
            self.work.ops[0] = op;
        } else {
            self.work.ops.clear();
            self.work.ops.push(op);
        }
        self.step = 0;
        self.behind = Behind::Nothing;
    }

    /// All legs of a matrix, none of which is joined, on a fabric without legs.
    pub fn cold() -> Rolling
        ensures { result ≡ cold_start }
    {
        Rolling {
            work: Work {
                ops: ArrayVec::new(),
            },
            step: 0,
            behind: Behind::JoinsFrom(Port(0)),
        }
    }

    /// All legs of a matrix, none of which is joined, on a fabric with any legs, where the mover is in this phase.
    pub fn cold_from(phase: Phase) -> Rolling
        ensures { IsColdFrom phase result }
    {
        match phase {
            Phase::Rest => Rolling {
                behind: Behind::PartsFrom(Port(0)),
                ..Rolling::cold()
            },
            Phase::InSet { leg, to } => Rolling::clearing(leg, to, 2),
            Phase::MidSet { leg, to } => Rolling::clearing(leg, to, 1),
            Phase::Old { leg, old } => Rolling::clearing(leg, old, 1),
            Phase::Freed { leg, old } => Rolling::clearing(leg, old, 2),
        }
    }

    // The clearing of a path as a part of which so many writes are made, and then the parts of all legs that stand.
    fn clearing(leg: Leg, middle: Middle, made: usize) -> Rolling
        ensures ends { rest_of result ≡ drop made (part_writes leg middle) }
        ensures behind { result.behind ≡ PartsFrom (record { 0 = 0 }) }
    {
        Rolling {
            work: Work::of(LegOp::Part { leg, middle }),
            step: made,
            behind: Behind::PartsFrom(Port(0)),
        }
    }

    /// Whether it is a cold one.
    pub fn is_cold(&self) -> bool
        ensures { IsTrue result ↔ IsCold self.now }
    {
        self.behind != Behind::Nothing
    }

    /// The work in hand.
    pub fn work(&self) -> &Work
        ensures { result.now ≡ self.now.work }
    {
        &self.work
    }

    /// How many of its writes are made.
    pub fn step(&self) -> usize
        ensures { result ≡ self.now.step }
    {
        self.step
    }

    /// The moves of the first op.
    #[inline(always)]
    pub(crate) fn first_moves(&self) -> &[Move]
        ensures value { result.now ≡ moves_of_first self.now.work.ops.items }
        ensures few { length result.now ≤ 94 }
    {
        let Some(op) = self.work.ops.as_slice().get(0) else {
            return &[];
        };
        match op {
            LegOp::Join { moves, .. } => moves.as_slice(),
            LegOp::Part { .. } => &[],
            LegOp::Shift { moves } => moves.as_slice(),
        }
    }

    /// So many of its writes are made now.
    pub(crate) fn reach(&mut self, step: usize)
        ensures { self.new ≡ at_step step self.old }
    {
        self.step = step;
    }
}
