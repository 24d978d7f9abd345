//! Records whose changes are made where their work isn't asked for: it isn't built then.
ghost use Rattle.std.specs.Prelude.{◌≡◌, ◌⊎◌, [], ◌∷◌, IsTrue, None, Option, true};
ghost use Rattle.dxc_num.specs.declared.port.Middle.{Middle};
ghost use Rattle.dxc_num.specs.Dimensions.{IsInside};
ghost use Rattle.dxc_model.specs.Verdicts.{MayTake, effect};
ghost use Rattle.roll_plan.specs.declared.op.Chain.TheVariants.{Direct};
ghost use Rattle.paull_chain.specs.Choices.{IsJoinable};
ghost use Rattle.xc_recovery.specs.ChangeWorks.{IsReady};
ghost use Rattle.xc_recovery.specs.LegTasks.{tasks};
ghost use Rattle.xc_recovery.specs.Placings.{IsPlaced};
ghost use Rattle.xc_recovery.specs.Straight.{IsMade, IsNext, IsTaken, IsTried, by_choices, kept_of, network_of, spelled_in, tried_by};

use crate::leg_task::{LegTask, tasks_of};
use crate::make::{op_by, work_of};
use crate::record::{may_take, take_record};
use dxc_model::{Change, Table};
use dxc_num::{Leg, Middle};
use paull_chain::apply;
use paull_matrix::Matrix;
use roll_plan::{Chain, Choice, Work};
use xc_journal::entry_of;

// Parts a leg, where the choice is the middle on which it stands.
fn part(matrix: &mut Matrix, leg: Leg, choice: Choice) -> bool
    requires { IsInside matrix.old.shape leg }
    ensures { (out : Option Middle)
        → IsTried result (tried_by out (LegTask.Part leg) choice) matrix.old matrix.new }
{
    let Some(middle) = matrix.middle_of(leg) else {
        return false;
    };
    if choice.middle != middle || choice.chain != Chain::Direct {
        return false;
    }
    matrix.remove(leg);
    true
}

// Joins a leg on this middle, where it is a working one that is free for the leg.
fn join(matrix: &mut Matrix, leg: Leg, middle: Middle) -> bool
    requires { IsJoinable matrix.old leg }
    ensures { IsTried result
        (tried_by None (LegTask.Join leg) (record { middle = middle; chain = Direct }))
        matrix.old matrix.new }
{
    if middle.0 as u16 >= matrix.shape().slots() {
        return false;
    }
    if !matrix.is_free_for(leg, middle) {
        return false;
    }
    matrix.place(leg, middle);
    true
}

// Does a task by its op.
fn by_op(matrix: &mut Matrix, out: Option<Middle>, task: LegTask, choice: Choice) -> bool
    requires { IsReady out matrix.old task }
    ensures { IsTried result (tried_by out task choice) matrix.old matrix.new }
{
    match op_by(matrix, out, task, choice) {
        Some(op) => {
            apply(matrix, &op);
            true
        }
        None => false,
    }
}

// Joins a leg by this choice, while this middle is out or none.
fn join_by(matrix: &mut Matrix, out: Option<Middle>, leg: Leg, choice: Choice) -> bool
    requires { IsReady out matrix.old (LegTask.Join leg) }
    ensures { IsTried result (tried_by out (LegTask.Join leg) choice) matrix.old matrix.new }
{
    match (out, choice.chain) {
        (None, Chain::Direct) => join(matrix, leg, choice.middle),
        _ => by_op(matrix, out, LegTask::Join(leg), choice),
    }
}

// Does a task by this choice. False exactly where the choice isn't valid.
fn do_task(matrix: &mut Matrix, out: Option<Middle>, task: LegTask, choice: Choice) -> bool
    requires { IsReady out matrix.old task }
    ensures { IsTried result (tried_by out task choice) matrix.old matrix.new }
{
    match task {
        LegTask::Join(leg) => join_by(matrix, out, leg, choice),
        LegTask::Part(leg) => part(matrix, leg, choice),
    }
}

// Makes a change of one leg.
fn make_one(
    matrix: &mut Matrix,
    table: &Table,
    change: &Change,
    task: LegTask,
    choices: &[Choice],
) -> bool
    requires placed { IsPlaced table.now matrix.old }
    requires granted { MayTake table.now change.now }
    requires only { tasks table.now change.now ≡ task ∷ [] }
    ensures { IsMade result table.now (by_choices change.now choices.now) matrix.old matrix.new }
{
    if choices.len() != 1 {
        return false;
    }
    do_task(matrix, table.out(), task, choices[0])
}

// Makes any change by its work.
// Apart, since works are large, and a change of one leg pays for no room of one.
#[inline(never)]
fn make_all(matrix: &mut Matrix, table: &Table, change: &Change, choices: &[Choice]) -> bool
    requires placed { IsPlaced table.now matrix.old }
    requires granted { MayTake table.now change.now }
    ensures { IsMade result table.now (by_choices change.now choices.now) matrix.old matrix.new }
{
    match work_of(matrix, table, change, choices) {
        Some(_work) => true,
        None => false,
    }
}

fn make_any(matrix: &mut Matrix, table: &Table, change: &Change, choices: &[Choice]) -> bool
    requires placed { IsPlaced table.now matrix.old }
    requires granted { MayTake table.now change.now }
    ensures { IsMade result table.now (by_choices change.now choices.now) matrix.old matrix.new }
{
    let tasks = tasks_of(table, change);
    if tasks.len() == 1 {
        return make_one(matrix, table, change, tasks[0], choices);
    }
    make_all(matrix, table, change, choices)
}

// Makes a change that the table grants by these choices on the table's matrix. False exactly where they aren't valid for it; the
// matrix then is as it was.
fn make_change(matrix: &mut Matrix, table: &Table, change: &Change, choices: &[Choice]) -> bool
    requires placed { IsPlaced table.now matrix.old }
    requires granted { MayTake table.now change.now }
    ensures made { IsMade result table.now (by_choices change.now choices.now) matrix.old
        matrix.new }
    // After it the matrix is that of the table after the change.
    ensures placed { IsTrue result → IsPlaced (effect table.now change.now) matrix.new }
{
    make_any(matrix, table, change, choices)
}

// Takes a record as `take_record` does, without its work.
fn make_record(table: &mut Table, matrix: &mut Matrix, bytes: &[u8; 64], version: u8) -> bool
    requires placed { IsPlaced table.old matrix.old }
    requires version { (version ≡ 1) ⊎ (version ≡ 2) }
    ensures taken { IsTaken result (spelled_in version bytes.now) (network_of table.old matrix.old)
        (network_of table.new matrix.new) }
    ensures placed { IsPlaced table.new matrix.new }
{
    let Some((change, choices)) = entry_of(bytes, version) else {
        return false;
    };
    if !may_take(table, &change) {
        return false;
    }
    if !make_change(matrix, table, &change, choices.as_slice()) {
        return false;
    }
    table.take(change);
    true
}

// Takes the last record, and puts its work into `last`.
// Apart, as `make_all` is.
#[inline(never)]
fn take_last(
    table: &mut Table,
    matrix: &mut Matrix,
    bytes: &[u8; 64],
    version: u8,
    last: &mut Work,
) -> bool
    requires placed { IsPlaced table.old matrix.old }
    requires version { (version ≡ 1) ⊎ (version ≡ 2) }
    ensures taken { IsNext result (spelled_in version bytes.now) (network_of table.old matrix.old)
        (network_of table.new matrix.new) (kept_of true last.new.ops.items) }
    ensures placed { IsPlaced table.new matrix.new }
{
    match take_record(table, matrix, bytes, version) {
        Some(work) => {
            *last = work;
            true
        }
        None => false,
    }
}

/// Takes a record as `take_record` does. The work is only built of the last record, and put into `last`.
pub(crate) fn take_next(
    table: &mut Table,
    matrix: &mut Matrix,
    bytes: &[u8; 64],
    version: u8,
    is_last: bool,
    last: &mut Work,
) -> bool
    requires placed { IsPlaced table.old matrix.old }
    requires version { (version ≡ 1) ⊎ (version ≡ 2) }
    ensures taken { IsNext result (spelled_in version bytes.now) (network_of table.old matrix.old)
        (network_of table.new matrix.new) (kept_of is_last last.new.ops.items) }
    ensures placed { IsPlaced table.new matrix.new }
{
    if !is_last {
        return make_record(table, matrix, bytes, version);
    }
    take_last(table, matrix, bytes, version, last)
}
