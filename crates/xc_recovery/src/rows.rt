//! The rows of a checkpoint.
ghost use Rattle.std.specs.Prelude.{◌≡◌, ◌+◌, [], ◌∷◌, Some, IfSome, map, option_map, slice_get};
ghost use Rattle.dxc_num.specs.Dimensions.{IsInside};
ghost use Rattle.dxc_model.specs.Equipment.{IsEquipment, modules_in};
ghost use Rattle.dxc_model.specs.declared.conn.Conn.{Conn};
ghost use Rattle.dxc_model.specs.Order.{first_from};
ghost use Rattle.dxc_model.specs.Tables.{legs_of};
ghost use Rattle.paull_matrix.specs.Colourings.{IsHeld};
ghost use Rattle.paull_chain.specs.Paull.{Among};
ghost use Rattle.xc_recovery.specs.Placings.{IsPlaced};
ghost use Rattle.xc_recovery.specs.Rows.{IsRowAt, checkpoint, row_of, standing};

use crate::fold::equipment_in;
use arrayvec::ArrayVec;
use dxc_model::{Cct, Change, Conn, Table};
use dxc_num::Leg;
use paull_matrix::Matrix;
use roll_plan::{Chain, Choice};
use xc_journal::record_of;

// The choice of a leg that stands: straight to its middle.
fn choice_at(matrix: &Matrix, leg: Leg) -> Choice
    requires inside { IsInside matrix.now.shape leg }
    requires held { IsHeld matrix.now leg }
    ensures { result ≡ standing matrix.now leg }
{
    match matrix.middle_of(leg) {
        Some(middle) => Choice {
            middle,
            chain: Chain::Direct,
        },
        None => unreachable!(),
    }
}

fn one(first: Choice) -> ArrayVec<Choice, 2>
    ensures { result.items ≡ first ∷ [] }
{
    let mut choices = ArrayVec::new();
    choices.push(first);
    choices
}

fn two(first: Choice, second: Choice) -> ArrayVec<Choice, 2>
    ensures { result.items ≡ first ∷ second ∷ [] }
{
    let mut choices = one(first);
    choices.push(second);
    choices
}

// The choices of a connection's legs.
fn choices_at(matrix: &Matrix, conn: &Conn) -> ArrayVec<Choice, 2>
    requires inside { (l : Leg) → Among l (legs_of conn.now) → IsInside matrix.now.shape l }
    requires held { (l : Leg) → Among l (legs_of conn.now) → IsHeld matrix.now l }
    ensures { result.items ≡ map (standing matrix.now) (legs_of conn.now) }
{
    let leg = conn.leg();
    match conn.cct {
        Cct::OneWay => one(choice_at(matrix, leg)),
        Cct::TwoWay => two(choice_at(matrix, leg), choice_at(matrix, leg.back())),
    }
}

// The row of the first connection from the port on. The port then is the one after it.
fn conn_row(table: &Table, matrix: &Matrix, port: &mut u16) -> Option<[u8; 64]>
    requires { IsPlaced table.now matrix.now }
    ensures row { result ≡ option_map (row_of matrix.now) (first_from port.old table.now.conns) }
    ensures port { (k : Conn) → first_from port.old table.now.conns ≡ Some k
        → port.new ≡ k.from.0 + 1 }
{
    let conn = table.next_from(*port)?;
    *port = conn.from.0 + 1;
    Some(record_of(&Change::Enter(conn), &choices_at(matrix, &conn)))
}

/// The equipped modules from which a checkpoint of this table starts, bit m for module m from 0.
pub fn checkpoint_equipment(table: &Table) -> u64
    ensures fits { IsEquipment table.now.shape result }
    ensures same { modules_in table.now.shape result ≡ table.now.equipped }
{
    equipment_in(&table.shape(), table.equipment())
}

/// The record of that number, from 0, of the checkpoint of a table and its matrix. The first one takes out the middle that is
/// out, if one is; then each connection is entered, in the table's order, each of its legs straight at its middle. None exactly
/// where there are at most so many.
///
/// `port` tells from where on the connections are left: it is 0 for the first record, and what that left for the next.
pub fn checkpoint_row(table: &Table, matrix: &Matrix, i: usize, port: &mut u16) -> Option<[u8; 64]>
    requires placed { IsPlaced table.now matrix.now }
    requires port { IsRowAt table.now i port.old }
    ensures row { result ≡ slice_get (checkpoint table.now matrix.now) i }
    ensures port { IfSome result (λ row. IsRowAt table.now (i + 1) port.new) }
{
    match table.out() {
        None => conn_row(table, matrix, port),
        Some(middle) => {
            if i == 0 {
                Some(record_of(&Change::TakeOut(middle), &ArrayVec::new()))
            } else {
                conn_row(table, matrix, port)
            }
        }
    }
}
