// The changes that come to a table.
ghost use Rattle.std.specs.Prelude.{◌≡◌, ◌++◌, IfOk, map};
ghost use Rattle.std.specs.List.{AllByRecursion};
ghost use Rattle.dxc_model.specs.declared.op.Change.TheVariants.{Enter};
ghost use Rattle.dxc_model.specs.Equipment.{has_bit};
ghost use Rattle.tl1_answer.specs.Texts.{IsChangeOf};
ghost use Rattle.tl1_script.specs.Scripts.{changes_to as changes_of, equipment_changes as equipment_of, module_changes, out_changes};

use dxc_causes::NoMemory;
use dxc_model::{Change, Conn, Selection, Table, equipment};
use std::alloc::Global;

/// The changes that come to the table from one without connections whose equipped modules are the bits of `equipped`: first the equipment,
/// then the connections in order, and last the middle that is out, which might stand in the way of a connection.
pub fn changes_to(alloc: Global, equipped: u64, table: &Table) -> Result<Vec<Change>, NoMemory>
    ensures changes { IfOk result (λ cs. cs.items ≡ changes_of equipped table.now) }
    ensures inside { IfOk result (λ cs. AllByRecursion (IsChangeOf table.now.shape) cs.items) }
{
    let mut changes = equipment_changes(alloc, equipped, table)?;
    let mut rows = Vec::with_capacity(alloc, table.shape().ports() as usize)?;
    table.rows(Selection::All, &mut rows);
    push_entries(&rows, &mut changes)?;
    push_out(table, &mut changes)?;
    Ok(changes)
}

fn push_out(table: &Table, changes: &mut Vec<Change>) -> Result<(), NoMemory>
    ensures { IfOk result (λ _. changes.new.items
        ≡ changes.old.items ++ out_changes table.now.out) }
{
    if let Some(middle) = table.out() {
        changes.push(Change::TakeOut(middle))?;
    }
    Ok(())
}

fn push_entries(rows: &[Conn], changes: &mut Vec<Change>) -> Result<(), NoMemory>
    ensures { IfOk result (λ _. changes.new.items ≡ changes.old.items ++ map Enter rows.now) }
{
    for at in 0..rows.len() {
        changes.push(Change::Enter(rows[at]))?;
    }
    Ok(())
}

fn equipment_changes(alloc: Global, equipped: u64, table: &Table) -> Result<Vec<Change>, NoMemory>
    ensures { IfOk result (λ cs. cs.items ≡ equipment_of equipped table.now) }
{
    let mut changes = Vec::new(alloc);
    for at in 0..table.shape().modules() {
        let (was, is) = (equipment::has(equipped, at), table.equipped(at));
        push_module(was, is, at, &mut changes)?;
    }
    Ok(changes)
}

fn push_module(was: bool, is: bool, number: u16, changes: &mut Vec<Change>) -> Result<(), NoMemory>
    ensures { IfOk result (λ _. changes.new.items
        ≡ changes.old.items ++ module_changes was is number) }
{
    match (was, is) {
        (false, true) => changes.push(Change::EnterModule(number))?,
        (true, false) => changes.push(Change::DeleteModule(number))?,
        (true, true) | (false, false) => {}
    }
    Ok(())
}
