// Names as they are written.
ghost use Rattle.std.specs.Prelude.{◌≡◌, ◌≤◌, ◌+◌, ◌/◌, ◌%◌, ◌++◌, length, codes, decimal};
ghost use Rattle.arrayvec.specs.ArrayVec.{array_vec_len};
ghost use Rattle.dxc_num.specs.Dimensions.{IsModule, IsPort, IsWorking, module_of, slot_of};
ghost use Rattle.dxc_aid.specs.Names.{port_name, module_name, middle_name};

use crate::text::Text;
use arrayvec::ArrayVec;
use dxc_num::{Middle, Port, Shape};

/// Appends the port's name, in upper case.
pub fn write_port<const N: usize>(shape: Shape, port: Port, out: &mut ArrayVec<u8, N>)
    requires inside { IsPort shape port }
    requires room { array_vec_len out.old + 16 ≤ N }
    ensures name { out.new.items ≡ out.old.items ++ port_name shape port }
    ensures short { array_vec_len out.new ≤ array_vec_len out.old + 16 }
{
    let mut name = Text::<16>::new();
    put_port(shape, port, &mut name);
    append(out, name.bytes());
}

/// Puts the port's name after the text, in upper case.
#[inline(always)]
pub fn put_port<const N: usize>(shape: Shape, port: Port, out: &mut Text<N>)
    requires inside { IsPort shape port }
    requires room { length out.old + 16 ≤ N }
    ensures name { out.new ≡ out.old ++ port_name shape port }
    ensures short { length out.new ≤ length out.old + 16 }
{
    let (number, slot) = (module_number(shape, port), slot_number(shape, port));
    out.put(b"DS0-");
    put_number(number, out);
    out.put(b"-");
    put_number(slot, out);
}

/// Puts a number below 100 after the text, in decimal.
#[inline(always)]
fn put_number<const N: usize>(number: u16, out: &mut Text<N>)
    requires below { number ≤ 99 }
    requires room { length out.old + 2 ≤ N }
    ensures digits { out.new ≡ out.old ++ decimal number }
    ensures short { length out.new ≤ length out.old + 2 }
{
    if number < 10 {
        out.put(&[b'0' + number as u8]);
    } else {
        let at = number as usize * 2;
        out.put(&[PAIRS[at], PAIRS[at + 1]]);
    }
}

// The two digits of each number below 100.
static PAIRS: [u8; 200] = *b"\
    0001020304050607080910111213141516171819\
    2021222324252627282930313233343536373839\
    4041424344454647484950515253545556575859\
    6061626364656667686970717273747576777879\
    8081828384858687888990919293949596979899";

/// The number of the port's module, from 1.
fn module_number(shape: Shape, port: Port) -> u16
    requires { IsPort shape port }
    ensures number { result ≡ module_of shape port + 1 }
    ensures short { result ≤ 99 }
{
    let _ = shape.slots();
    shape.module_of(port) + 1
}

/// The number of its slot, from 1.
fn slot_number(shape: Shape, port: Port) -> u16
    ensures number { result ≡ slot_of shape port + 1 }
    ensures short { result ≤ 99 }
{
    let _ = shape.slots();
    shape.slot_of(port) + 1
}

/// Appends the module's name, in upper case.
pub fn write_module(shape: Shape, module: u16, out: &mut ArrayVec<u8, 128>)
    requires inside { IsModule shape «module» }
    requires room { array_vec_len out.old + 16 ≤ 128 }
    ensures name { out.new.items ≡ out.old.items ++ module_name «module» }
    ensures short { array_vec_len out.new ≤ array_vec_len out.old + 16 }
{
    append(out, b"MOD-");
    append_number(out, module + 1);
}

/// Appends the middle's name, in upper case.
pub fn write_middle(shape: Shape, middle: Middle, out: &mut ArrayVec<u8, 128>)
    requires inside { IsWorking shape middle.0 }
    requires room { array_vec_len out.old + 16 ≤ 128 }
    ensures name { out.new.items ≡ out.old.items ++ middle_name middle }
    ensures short { array_vec_len out.new ≤ array_vec_len out.old + 16 }
{
    append(out, b"MID-");
    append_number(out, middle.0 as u16 + 1);
}

fn append<const N: usize>(out: &mut ArrayVec<u8, N>, text: &[u8])
    requires { array_vec_len out.old + length text.now ≤ N }
    ensures { out.new.items ≡ out.old.items ++ text.now }
{
    let _ = out.try_extend_from_slice(text);
}

/// Appends a number of at most five digits, in decimal. Shapes have numbers of one or two, which are written at once.
#[tactic(auto, using(crate::proofs::Numbers::decimal_one))]
fn append_number<const N: usize>(out: &mut ArrayVec<u8, N>, number: u16)
    requires { array_vec_len out.old + 5 ≤ N }
    ensures digits { out.new.items ≡ out.old.items ++ decimal number }
    ensures short { array_vec_len out.new ≤ array_vec_len out.old + 5 }
{
    if number < 10 {
        out.push(b'0' + number as u8);
    } else if number < 100 {
        out.push(b'0' + (number / 10) as u8);
        out.push(b'0' + (number % 10) as u8);
    } else {
        let mut buffer = itoa::Buffer::new();
        append(out, buffer.format(number).as_bytes());
    }
}
