ghost use Rattle.std.specs.Prelude.{◌≡◌, ◌≤◌, true, length};
ghost use Rattle.tl1_text.specs.Tags.{is_sid as reads_as_sid, is_name_byte as may_stand, are_name_bytes, as_sid};

use arrayvec::ArrayVec;
use std::marker::Model;

/// A source identifier (GR-831), by which a network element is named in its messages and in a command's TID: 1 to
/// 20 ASCII letters, digits and `-`, of which the first is a letter.
#[derive(PartialEq, Eq, Drop)]
pub struct Sid {
    text: ArrayVec<u8, 20>,
}

impl Model for Sid {
    ghost use Rattle.std.specs.Prelude.{List, ℕ, ◌≡◌, true};
    ghost use Rattle.tl1_text.specs.Tags.{is_sid};

    ghost Value = { List ℕ };

    ghost view = { λ s. s.text.items };

    ghost invariant = { λ s. is_sid s.text.items ≡ true };

    ghost inverse = { λ bytes. record { text = record { items = bytes } } };
}

impl Sid {
    /// The most bytes of an identifier.
    pub const MOST: usize = 20;

    /// None exactly where the bytes are no identifier.
    pub fn of(bytes: &[u8]) -> Option<Sid>
        ensures { result ≡ as_sid bytes.now }
    {
        if !is_sid(bytes) {
            return None;
        }
        let text = ArrayVec::try_from(bytes).ok()?;
        Some(Sid { text })
    }

    /// The bytes as they are printed.
    pub fn bytes(&self) -> &[u8]
        ensures bytes { result.now ≡ self.now }
        ensures short { length result.now ≤ 20 }
        ensures valid { reads_as_sid self.now ≡ true }
    {
        self.text.as_slice()
    }
}

fn is_sid(bytes: &[u8]) -> bool
    ensures { result ≡ reads_as_sid bytes.now }
{
    match bytes {
        [] => false,
        [first, ..] => bytes.len() <= Sid::MOST
            && first.is_ascii_alphabetic()
            && all_name_bytes(bytes),
    }
}

fn all_name_bytes(bytes: &[u8]) -> bool
    ensures { result ≡ are_name_bytes bytes.now }
{
    bytes.iter().all(|b| is_name_byte(*b))
}

fn is_name_byte(b: u8) -> bool
    ensures { result ≡ may_stand b }
{
    b.is_ascii_alphanumeric() || b == b'-'
}
