//! The moves of a middle's legs, where a change takes it out of service or puts it back.
ghost use Rattle.std.specs.Prelude.{◌≡◌, MatchOption, IfSome};
ghost use Rattle.dxc_model.specs.Verdicts.{MayTake};
ghost use Rattle.paull_chain.specs.Works.{IsValidOp};
ghost use Rattle.xc_recovery.specs.ChangeWorks.{IsOfLegs, Shifts};
ghost use Rattle.xc_recovery.specs.Placings.{IsPlaced};

use dxc_model::{Change, Table};
use mid_service::{plan_put, plan_take};
use paull_matrix::Matrix;
use roll_plan::LegOp;

/// The moves of a change of a middle that the table grants: of one that is taken out to the spare, of one that is put back
/// from it. None of any other change.
pub fn shift_of(matrix: &Matrix, table: &Table, change: &Change) -> Option<LegOp>
    requires placed { IsPlaced table.now matrix.now }
    requires granted { MayTake table.now change.now }
    ensures shift { MatchOption result (IsOfLegs change.now) (Shifts matrix.now change.now) }
    ensures valid { IfSome result (IsValidOp matrix.now) }
{
    match *change {
        Change::TakeOut(middle) => Some(plan_take(matrix, middle)),
        Change::PutBack(middle) => Some(plan_put(matrix, middle)),
        _ => None,
    }
}
