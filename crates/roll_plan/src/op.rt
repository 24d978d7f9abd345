ghost use Rattle.std.specs.Prelude.{◌≡◌};
ghost use Rattle.roll_plan.specs.Works.{IsDirectJoin, join_writes, moves_of, op_writes};

use arrayvec::ArrayVec;
use dxc_num::{Leg, Middle};

/// How a new leg comes to its middle (Paull 1962).
#[derive(Clone, Copy, PartialEq, Eq)]
pub enum Chain {
    /// The middle is free at both ends.
    Direct,
    /// It is free after the exchange of the chain from the leg's row, whose legs are on it and on this middle in turn.
    Row(Middle),
    /// It is free after the exchange of the chain from the leg's column, whose legs are on it and on this middle in turn.
    Column(Middle),
}

impl Default for Chain {
    ghost use Rattle.std.specs.Prelude.{◌≡◌};
    ghost use Rattle.roll_plan.specs.declared.op.Chain.TheVariants.{Direct};

    ghost is_default = { λ c. c ≡ Direct };

    fn default() -> Self {
        Chain::Direct
    }
}

/// The middle of a new leg, and how it comes to be free for it.
#[derive(Clone, Copy, PartialEq, Eq, Default)]
pub struct Choice {
    pub middle: Middle,
    pub chain: Chain,
}

/// A leg goes from one middle to another, the new path made before the old one is left.
#[derive(Clone, Copy, PartialEq, Eq, Default)]
pub struct Move {
    pub leg: Leg,
    pub from: Middle,
    pub to: Middle,
}

/// Moves in order. A chain has 63 legs at most, each second of which goes over the spare: 94 moves.
pub type Moves = ArrayVec<Move, 94>;

/// What is done for one leg, or for the legs of one middle.
#[derive(PartialEq, Eq, Drop)]
pub enum LegOp {
    /// The leg is joined at the middle of the choice, after these moves.
    Join {
        leg: Leg,
        choice: Choice,
        moves: Moves,
    },
    /// The leg, which is on this middle, is parted.
    Part {
        leg: Leg,
        middle: Middle,
    },
    /// Moves without a join.
    Shift {
        moves: Moves,
    },
}

impl LegOp {
    /// Its moves, in order.
    #[inline(always)]
    pub fn moves(&self) -> &[Move]
        ensures { result.now ≡ moves_of self.now }
    {
        match self {
            LegOp::Join { moves, .. } => moves.as_slice(),
            LegOp::Part { .. } => &[],
            LegOp::Shift { moves } => moves.as_slice(),
        }
    }

    /// The join at a middle that is free at both ends.
    pub fn direct(leg: Leg, middle: Middle) -> LegOp
        ensures direct { IsDirectJoin leg middle result }
        ensures writes { op_writes result ≡ join_writes leg middle }
    {
        LegOp::Join {
            leg,
            choice: Choice {
                middle,
                chain: Chain::Direct,
            },
            moves: ArrayVec::new(),
        }
    }
}

impl Default for LegOp {
    ghost use Rattle.std.specs.Prelude.{◌≡◌};
    ghost use Rattle.dxc_num.specs.Dimensions.{leg};
    ghost use Rattle.roll_plan.specs.declared.op.LegOp.TheVariants.{Part};

    ghost is_default = { λ op. op ≡ Part (leg 0 0) (record { 0 = 0 }) };

    fn default() -> Self {
        LegOp::Part {
            leg: Leg::default(),
            middle: Middle::default(),
        }
    }
}
