// The texts of rows and changes.
ghost use Rattle.std.specs.Prelude.{◌≡◌, ◌≤◌, ◌+◌, ◌++◌, [], codes, length};
ghost use Rattle.arrayvec.specs.ArrayVec.{array_vec_len};
ghost use Rattle.tl1_answer.specs.Messages.{with_line};
ghost use Rattle.dxc_num.specs.Dimensions.{IsModule, IsWorking};
ghost use Rattle.tl1_answer.specs.Texts.{IsOfShape, IsChangeOf, cct_text as text_of_cct, with_conn, with_label, row_text as text_of_row, change_text as text_of_change, module_text as text_of_module, middle_text as text_of_middle};

use crate::append::append;
use arrayvec::ArrayVec;
use dxc_aid::{Text, put_port, write_middle, write_module};
use dxc_model::{Cct, Change, Conn, Label};
use dxc_num::{Middle, Shape};

/// Clears `out`, and writes a connection's row: `"FROM,TO:CCT"` with the quotes, and `:` with the label after the CCT
/// where it has one.
pub fn row_text(shape: Shape, conn: &Conn, out: &mut ArrayVec<u8, 128>)
    requires { IsOfShape shape conn.now }
    ensures text { out.new.items ≡ text_of_row shape conn.now }
{
    out.clear();
    append(out, b"\"");
    append_conn(shape, conn, out);
    append(out, b"\"");
}

/// Puts a connection's row after the block, as a text line.
#[inline(always)]
pub fn put_row(shape: Shape, conn: &Conn, out: &mut Text<4096>)
    requires inside { IsOfShape shape conn.now }
    requires room { length out.old + 80 ≤ 4096 }
    ensures line { out.new ≡ with_line out.old (text_of_row shape conn.now) }
    ensures short { length out.new ≤ length out.old + 80 }
{
    out.put(b"   \"");
    put_conn(shape, conn, out);
    out.put(b"\"\r\n");
}

/// Clears `out`, and writes the row of an equipped module, from 0, such as `"MOD-1:IS"` with the quotes.
pub fn module_text(shape: Shape, number: u16, out: &mut ArrayVec<u8, 128>)
    requires { IsModule shape number }
    ensures { out.new.items ≡ text_of_module number }
{
    out.clear();
    append(out, b"\"");
    write_module(shape, number, out);
    append(out, b":IS\"");
}

/// Clears `out`, and writes the row of a middle that is out of service, such as `"MID-1:OOS"` with the quotes.
pub fn middle_text(shape: Shape, middle: Middle, out: &mut ArrayVec<u8, 128>)
    requires { IsWorking shape middle.0 }
    ensures { out.new.items ≡ text_of_middle middle }
{
    out.clear();
    append(out, b"\"");
    write_middle(shape, middle, out);
    append(out, b":OOS\"");
}

/// Clears `out`, and writes a connection as in its row, without quotes.
pub fn conn_text(shape: Shape, conn: &Conn, out: &mut ArrayVec<u8, 128>)
    requires { IsOfShape shape conn.now }
    ensures text { out.new.items ≡ with_conn [] shape conn.now }
    ensures short { array_vec_len out.new ≤ 63 }
{
    out.clear();
    append_conn(shape, conn, out);
}

/// Clears `out`, and writes a change as the command that makes it, such as `"ENT-CRS-T0:FROM,TO:CCT"`, with the quotes.
pub fn change_text(shape: Shape, change: &Change, out: &mut ArrayVec<u8, 128>)
    requires { IsChangeOf shape change.now }
    ensures text { out.new.items ≡ text_of_change shape change.now }
{
    out.clear();
    match change {
        Change::Enter(conn) => {
            append(out, b"\"ENT-CRS-T0:");
            append_conn(shape, conn, out);
        }
        Change::Delete(conn) => {
            append(out, b"\"DLT-CRS-T0:");
            append_conn(shape, conn, out);
        }
        Change::Edit(conn) => {
            append(out, b"\"ED-CRS-T0:");
            append_conn(shape, conn, out);
        }
        Change::EnterModule(number) => {
            append(out, b"\"ENT-EQPT:");
            write_module(shape, *number, out);
        }
        Change::DeleteModule(number) => {
            append(out, b"\"DLT-EQPT:");
            write_module(shape, *number, out);
        }
        Change::TakeOut(middle) => {
            append(out, b"\"RMV-MID:");
            write_middle(shape, *middle, out);
        }
        Change::PutBack(middle) => {
            append(out, b"\"RST-MID:");
            write_middle(shape, *middle, out);
        }
    }
    append(out, b"\"");
}

fn append_conn(shape: Shape, conn: &Conn, out: &mut ArrayVec<u8, 128>)
    requires inside { IsOfShape shape conn.now }
    requires room { array_vec_len out.old + 63 ≤ 128 }
    ensures text { out.new.items ≡ with_conn out.old.items shape conn.now }
    ensures short { array_vec_len out.new ≤ array_vec_len out.old + 63 }
{
    let mut text = Text::<64>::new();
    put_conn(shape, conn, &mut text);
    append(out, text.bytes());
}

#[inline(always)]
fn put_conn<const N: usize>(shape: Shape, conn: &Conn, out: &mut Text<N>)
    requires inside { IsOfShape shape conn.now }
    requires room { length out.old + 63 ≤ N }
    ensures text { out.new ≡ with_conn out.old shape conn.now }
    ensures short { length out.new ≤ length out.old + 63 }
{
    put_port(shape, conn.from, out);
    out.put(b",");
    put_port(shape, conn.to, out);
    out.put(b":");
    out.put(cct_text(conn.cct));
    put_label(&conn.label, out);
}

/// Puts a colon and the label after the text; nothing where that is empty.
#[inline(always)]
fn put_label<const N: usize>(label: &Label, out: &mut Text<N>)
    requires room { length out.old + 25 ≤ N }
    ensures text { out.new ≡ with_label out.old label.now }
    ensures short { length out.new ≤ length out.old + 25 }
{
    if !label.is_empty() {
        put_behind_colon(label.bytes(), out);
    }
}

/// Few connections have a label, so the way to it stands apart.
#[inline(never)]
fn put_behind_colon<const N: usize>(text: &[u8], out: &mut Text<N>)
    requires room { length out.old + length text.now + 1 ≤ N }
    ensures text { out.new ≡ out.old ++ codes ":" ++ text.now }
    ensures len { length out.new ≡ length out.old + length text.now + 1 }
{
    out.put(b":");
    out.append(text);
}

fn cct_text(cct: Cct) -> &'static [u8; 4]
    ensures { result.now ≡ text_of_cct cct }
{
    match cct {
        Cct::OneWay => b"1WAY",
        Cct::TwoWay => b"2WAY",
    }
}
