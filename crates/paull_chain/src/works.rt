//! Works on the matrix, made and taken back.
ghost use Rattle.std.specs.Prelude.{◌≡◌};
ghost use Rattle.paull_matrix.specs.Colourings.{Colouring};
ghost use Rattle.paull_chain.specs.Works.{after_ops, AreValidOps, OpsMade};

use crate::ops::{apply, undo};
use paull_matrix::Matrix;
use roll_plan::Work;

/// Makes the ops of a work in order; each is valid at its turn.
pub fn apply_work(matrix: &mut Matrix, work: &Work)
    requires { AreValidOps matrix.old work.now.ops.items }
    ensures { matrix.new ≡ after_ops work.now.ops.items matrix.old }
{
    for op in work.ops.as_slice() {
        apply(matrix, op);
    }
}

/// Gives back the matrix on which the ops of a work were made.
pub fn undo_work(matrix: &mut Matrix, work: &Work)
    requires { (c : Colouring) × OpsMade work.now.ops.items c matrix.old }
    ensures { (c : Colouring) → OpsMade work.now.ops.items c matrix.old → matrix.new ≡ c }
{
    let ops = work.ops.as_slice();
    let mut left = ops.len();
    while left > 0 {
        left -= 1;
        undo(matrix, &ops[left]);
    }
}
