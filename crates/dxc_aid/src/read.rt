// Names as they are read.
ghost use Rattle.std.specs.Prelude.{◌≡◌, ◌<◌, ◌≤◌, ◌==◌, true, Some, IfSome, length, position};
ghost use Rattle.std.specs.Option.{option_map, option_and_then};
ghost use Rattle.dxc_num.specs.Dimensions.{IsModule, IsPort, IsWorking};
ghost use Rattle.dxc_aid.specs.Names.{is_same_text, up_to, number_of as written_number, behind as text_behind, port_of_numbers as read_numbers, port_at, module_named, port_named, selection_named, middle_named, numbered};

use dxc_model::Selection;
use dxc_num::{Middle, Port, Shape};

/// The port of a name `DS0-<module>-<slot>`, both decimal from 1 without leading zeros, letters in either case; None
/// exactly where the text is no name of a port of the shape.
#[tactic(auto, unfolding(crate::specs::Names::port_named))]
pub fn port_of(shape: Shape, text: &[u8]) -> Option<Port>
    ensures name { result ≡ port_named shape text.now }
    ensures inside { IfSome result (IsPort shape) }
{
    match behind_exactly(b"DS0-", text) {
        Some(numbers) => port_of_numbers(shape, numbers),
        None => any_port_of(shape, text),
    }
}

/// The same, most of whose names have their letters in capitals.
#[inline(never)]
#[tactic(auto, unfolding(crate::specs::Names::port_named))]
fn any_port_of(shape: Shape, text: &[u8]) -> Option<Port>
    ensures name { result ≡ port_named shape text.now }
    ensures inside { IfSome result (IsPort shape) }
{
    port_of_numbers(shape, behind(b"DS0-", text)?)
}

/// The module of a name `MOD-<module>`, from 0; None exactly where the text is no name of a module of the shape.
#[tactic(auto, unfolding(crate::specs::Names::module_named))]
pub fn module_of(shape: Shape, text: &[u8]) -> Option<u16>
    ensures name { result ≡ module_named shape text.now }
    ensures inside { IfSome result (IsModule shape) }
{
    number_behind(b"MOD-", shape.modules(), text)
}

/// The middle of a name `MID-<middle>`, from 0; None exactly where the text is no name of a working middle of the shape.
#[tactic(auto, unfolding(crate::specs::Names::middle_named))]
pub fn middle_of(shape: Shape, text: &[u8]) -> Option<Middle>
    ensures name { result ≡ middle_named shape text.now }
    ensures inside { IfSome result (λ m. IsWorking shape m.0) }
{
    let number = number_behind(b"MID-", shape.slots(), text)?;
    Some(Middle(number as u8))
}

/// `ALL`, a module or a port; None exactly where the text is no such name of the shape.
#[tactic(auto, unfolding(crate::specs::Names::selection_named))]
pub fn selection_of(shape: Shape, text: &[u8]) -> Option<Selection>
    ensures { result ≡ selection_named shape text.now }
{
    if text.eq_ignore_ascii_case(b"ALL") {
        return Some(Selection::All);
    }
    if let Some(found) = module_of(shape, text) {
        return Some(Selection::Module(found));
    }
    let port = port_of(shape, text)?;
    Some(Selection::Port(port))
}

/// What follows four bytes that are this text as it stands.
#[inline(always)]
fn behind_exactly<'a>(front: &[u8; 4], text: &'a [u8]) -> Option<&'a [u8]>
    ensures { IfSome result (λ t. text_behind front.now text.now ≡ Some t.now) }
{
    let Some((first, rest)) = text.split_first_chunk::<4>() else {
        return None;
    };
    if is_exactly(first, front) {
        Some(rest)
    } else {
        None
    }
}

#[inline(always)]
fn is_exactly(text: &[u8; 4], front: &[u8; 4]) -> bool
    ensures { result ≡ true → is_same_text text.now front.now ≡ true }
{
    text == front
}

/// What follows four bytes that are this text but for case.
fn behind<'a>(front: &[u8; 4], text: &'a [u8]) -> Option<&'a [u8]>
    ensures { option_map (λ t. t.now) result ≡ text_behind front.now text.now }
{
    let Some((first, rest)) = text.split_first_chunk::<4>() else {
        return None;
    };
    if is_same(first, front) {
        Some(rest)
    } else {
        None
    }
}

/// Whether four bytes are the same but for ASCII case. Most are the same as they stand.
fn is_same(text: &[u8; 4], front: &[u8; 4]) -> bool
    ensures { result ≡ is_same_text text.now front.now }
{
    text == front || text[..].eq_ignore_ascii_case(front)
}

/// The number from 1 to 99 that a text writes in decimal.
fn number_of(text: &[u8]) -> Option<u16>
    ensures { result ≡ written_number text.now }
{
    match text {
        [b] if (b'1'..=b'9').contains(b) => Some((*b - b'0') as u16),
        [a, b] if (b'1'..=b'9').contains(a) && (b'0'..=b'9').contains(b) => {
            Some((*a - b'0') as u16 * 10 + (*b - b'0') as u16)
        }
        _ => None,
    }
}

fn number_up_to(most: u16, text: &[u8]) -> Option<u16>
    ensures number { result ≡ option_and_then (up_to most) (written_number text.now) }
    ensures range { IfSome result (λ n. (1 ≤ n) × (n ≤ most)) }
{
    let number = number_of(text)?;
    if number <= most { Some(number) } else { None }
}

/// What a text numbers after four bytes: written it is from 1 up to a most, told from 0.
fn number_behind(front: &[u8; 4], most: u16, text: &[u8]) -> Option<u16>
    ensures number { result ≡ numbered front.now most text.now }
    ensures range { IfSome result (λ n. n < most) }
{
    let number = number_up_to(most, behind(front, text)?)?;
    Some(number - 1)
}

/// The port of two numbers joined by `-`.
#[inline(always)]
fn port_of_numbers(shape: Shape, text: &[u8]) -> Option<Port>
    ensures port { result ≡ read_numbers shape text.now }
    ensures inside { IfSome result (IsPort shape) }
{
    match text {
        [one, b'-', slot @ ..] if (b'1'..=b'9').contains(one) => {
            port_in(shape, (*one - b'0') as u16, slot)
        }
        _ => port_at_dash(shape, text),
    }
}

/// The port of a module's number and a slot's text.
#[inline(always)]
fn port_in(shape: Shape, number: u16, slot: &[u8]) -> Option<Port>
    requires least { 1 ≤ number }
    ensures port { result ≡ option_and_then (λ m. option_map (λ s. port_at shape m s)
        (option_and_then (up_to shape.slots) (written_number slot.now)))
        (up_to shape.modules number) }
    ensures inside { IfSome result (IsPort shape) }
{
    if number > shape.modules() {
        return None;
    }
    let slot = number_up_to(shape.slots(), slot)?;
    Some(port_numbered(shape, number, slot))
}

/// The same by the place of the `-`.
#[inline(never)]
fn port_at_dash(shape: Shape, text: &[u8]) -> Option<Port>
    ensures port { result ≡ read_numbers shape text.now }
    ensures inside { IfSome result (IsPort shape) }
{
    let at = dash(text)?;
    let number = number_up_to(shape.modules(), &text[..at])?;
    let slot = number_up_to(shape.slots(), &text[at + 1..])?;
    Some(port_numbered(shape, number, slot))
}

fn port_numbered(shape: Shape, number: u16, slot: u16) -> Port
    requires number { (1 ≤ number) × (number ≤ shape.modules) }
    requires slot { (1 ≤ slot) × (slot ≤ shape.slots) }
    ensures port { result ≡ port_at shape number slot }
    ensures inside { IsPort shape result }
{
    Port((number - 1) * shape.slots() + (slot - 1))
}

/// The place of the first `-`.
fn dash(text: &[u8]) -> Option<usize>
    ensures place { result ≡ position (λ b. b == 45) text.now }
    ensures within { IfSome result (λ at. at < length text.now) }
{
    text.iter().position(|&b| b == b'-')
}
