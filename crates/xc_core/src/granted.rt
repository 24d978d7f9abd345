//! The change of an operation that the table grants.
ghost use Rattle.std.specs.Prelude.{◌≡◌, Some};
ghost use Rattle.dxc_model.specs.declared.op.Change.{Change};
ghost use Rattle.dxc_model.specs.Operations.{IsApt};
ghost use Rattle.dxc_model.specs.Verdicts.{change_of as change_for, Grants, MayTake};

use dxc_model::{Change, Op, Table};

/// The verdict's change without its tests, for an operation that passed them.
pub(crate) fn granted(table: &Table, op: &Op) -> Change
    requires { (c : Change) × Grants table.now op.now c }
    ensures granted { Grants table.now op.now result }
    ensures own { MayTake table.now result }
{
    change_of(table, op)
}

fn change_of(table: &Table, op: &Op) -> Change
    requires apt { IsApt table.now.shape op.now }
    requires some { (c : Change) × (change_for table.now op.now ≡ Some c) }
    ensures { change_for table.now op.now ≡ Some result }
{
    match *op {
        Op::Enter(conn) => Change::Enter(conn),
        Op::Delete { from, to, cct: _ } => {
            let Some(conn) = table.connection_at(from, to) else {
                unreachable!()
            };
            Change::Delete(conn)
        }
        Op::Edit(conn) => match table.connection_at(conn.from, conn.to) {
            Some(old) => Change::Edit(conn.relabelled(&old)),
            None => Change::Edit(conn),
        },
        Op::EnterModule(module) => Change::EnterModule(module),
        Op::DeleteModule(module) => Change::DeleteModule(module),
        Op::TakeOut(middle) => Change::TakeOut(middle),
        Op::PutBack(middle) => Change::PutBack(middle),
        Op::Rows(_) | Op::Look(_) | Op::Restart => unreachable!(),
    }
}
