// Changes as the commands that make them.
ghost use Rattle.std.specs.Prelude.{◌≡◌, ◌≤◌, ◌<◌, ◌+◌, ◌^◌, ◌++◌, length, codes, decimal};
ghost use Rattle.arrayvec.specs.ArrayVec.{array_vec_len};
ghost use Rattle.tl1_answer.specs.Texts.{IsOfShape, IsChangeOf, cct_text as text_of_cct};
ghost use Rattle.tl1_script.specs.Commands.{line_of, with_ends, with_label, with_tag};

use arrayvec::ArrayVec;
use dxc_aid::{write_middle, write_module, write_port};
use dxc_model::{Cct, Change, Conn, Label};
use dxc_num::Shape;

/// Clears `out`, and writes the command that makes the change, with a number for its CTAG, on a line of its own.
pub fn command_line(shape: Shape, number: u64, change: &Change, out: &mut ArrayVec<u8, 128>)
    requires inside { IsChangeOf shape change.now }
    ensures line { out.new.items ≡ line_of shape number change.now }
{
    out.clear();
    match change {
        Change::Enter(conn) => {
            append(out, b"ENT-CRS-T0::");
            append_ends(shape, number, conn, out);
            append_label(&conn.label, out);
        }
        Change::Delete(conn) => {
            append(out, b"DLT-CRS-T0::");
            append_ends(shape, number, conn, out);
        }
        Change::Edit(conn) => {
            append(out, b"ED-CRS-T0::");
            append_ends(shape, number, conn, out);
            append_label(&conn.label, out);
        }
        Change::EnterModule(module) => {
            append(out, b"ENT-EQPT::");
            write_module(shape, *module, out);
            append_tag(number, out);
        }
        Change::DeleteModule(module) => {
            append(out, b"DLT-EQPT::");
            write_module(shape, *module, out);
            append_tag(number, out);
        }
        Change::TakeOut(middle) => {
            append(out, b"RMV-MID::");
            write_middle(shape, *middle, out);
            append_tag(number, out);
        }
        Change::PutBack(middle) => {
            append(out, b"RST-MID::");
            write_middle(shape, *middle, out);
            append_tag(number, out);
        }
    }
    append(out, b";\n");
}

// The ports, the CTAG, the empty general block, and the CCT.
fn append_ends(shape: Shape, number: u64, conn: &Conn, out: &mut ArrayVec<u8, 128>)
    requires inside { IsOfShape shape conn.now }
    requires room { array_vec_len out.old + 60 ≤ 128 }
    ensures text { out.new.items ≡ with_ends out.old.items shape number conn.now }
    ensures short { array_vec_len out.new ≤ array_vec_len out.old + 60 }
{
    write_port(shape, conn.from, out);
    append(out, b",");
    write_port(shape, conn.to, out);
    append_tag(number, out);
    append(out, b"::");
    append(out, cct_text(conn.cct));
}

// A colon, and the number in decimal.
fn append_tag(number: u64, out: &mut ArrayVec<u8, 128>)
    requires room { array_vec_len out.old + 21 ≤ 128 }
    ensures text { out.new.items ≡ with_tag out.old.items number }
    ensures short { array_vec_len out.new ≤ array_vec_len out.old + 21 }
{
    let mut digits = itoa::Buffer::new();
    append(out, b":");
    append(out, digits.format(number).as_bytes());
}

// A comma, and the label in quotes; nothing where it is empty.
fn append_label(label: &Label, out: &mut ArrayVec<u8, 128>)
    requires room { array_vec_len out.old + 27 ≤ 128 }
    ensures text { out.new.items ≡ with_label out.old.items label.now }
    ensures short { array_vec_len out.new ≤ array_vec_len out.old + 27 }
{
    if !label.is_empty() {
        append_quoted(label.bytes(), out);
    }
}

fn append_quoted(text: &[u8], out: &mut ArrayVec<u8, 128>)
    requires room { array_vec_len out.old + length text.now + 3 ≤ 128 }
    ensures text { out.new.items ≡ out.old.items ++ codes ",\"" ++ text.now ++ codes "\"" }
    ensures len { array_vec_len out.new ≡ array_vec_len out.old + length text.now + 3 }
{
    append(out, b",\"");
    append(out, text);
    append(out, b"\"");
}

fn cct_text(cct: Cct) -> &'static [u8; 4]
    ensures { result.now ≡ text_of_cct cct }
{
    match cct {
        Cct::OneWay => b"1WAY",
        Cct::TwoWay => b"2WAY",
    }
}

fn append(out: &mut ArrayVec<u8, 128>, text: &[u8])
    requires { array_vec_len out.old + length text.now ≤ 128 }
    ensures items { out.new.items ≡ out.old.items ++ text.now }
    ensures len { array_vec_len out.new ≡ array_vec_len out.old + length text.now }
{
    let _ = out.try_extend_from_slice(text);
}
