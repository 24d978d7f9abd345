ghost use Rattle.std.specs.Prelude.{◌≡◌, ◌≤◌, ◌-◌, ◌==◌, ◌++◌, true, length, replicate};
ghost use Rattle.dxc_model.specs.Labels.{is_label as reads_as_label, is_label_byte as may_stand, are_label_bytes, as_label};

use std::marker::Model;

/// What an office calls a connection: at most 24 bytes of ASCII text without `"`. An empty one is none.
#[derive(Clone, Copy)]
pub struct Label {
    bytes: [u8; 24],
    // Two bytes, so that a connection has 32: it then is copied by two moves.
    count: u16,
}

impl Model for Label {
    ghost use Rattle.std.specs.Prelude.{List, ℕ, ◌≡◌, ◌≤◌, ◌-◌, ◌++◌, true, length, replicate, take};
    ghost use Rattle.std.proofs.Common.{ap, ◌∙◌};
    ghost use Rattle.dxc_model.specs.Labels.{is_label};

    ghost Value = { List ℕ };

    ghost view = { λ l. take l.count l.bytes };

    ghost invariant = { λ l. (l.count ≤ 24) × (length (take l.count l.bytes) ≡ l.count)
        × (take l.count l.bytes ++ replicate (24 - l.count) 0 ≡ l.bytes)
        × (is_label (take l.count l.bytes) ≡ true) };

    ghost inverse = { λ text. record
        { bytes = text ++ replicate (24 - length text) 0; count = length text } };

    ghost inverse_ok = { λ l h i. record {
      bytes = (ap (λ n. take l.count l.bytes ++ replicate (24 - n) 0) h.1 ∙ h.2) i;
      count = h.1 i;
    } };
}

impl Label {
    /// The most bytes of a label.
    pub const MOST: usize = 24;

    /// None exactly where there are more bytes, or one isn't 0x20 to 0x7E or is `"`.
    pub fn of(text: &[u8]) -> Option<Label>
        ensures { result ≡ as_label text.now }
    {
        if text.is_empty() {
            return Some(Label::default());
        }
        if !is_label(text) {
            return None;
        }
        let mut bytes = [0; 24];
        bytes[..text.len()].copy_from_slice(text);
        Some(Label {
            bytes,
            count: text.len() as u16,
        })
    }

    /// The bytes as they were written.
    pub fn bytes(&self) -> &[u8]
        ensures bytes { result.now ≡ self.now }
        ensures short { length result.now ≤ 24 }
        ensures valid { reads_as_label self.now ≡ true }
    {
        &self.bytes[..self.count as usize]
    }

    /// The bytes, filled up with zeros.
    #[inline(always)]
    pub fn padded(&self) -> &[u8; 24]
        ensures { result.now ≡ self.now ++ replicate (24 - length self.now) 0 }
    {
        &self.bytes
    }

    /// Whether it is no label.
    pub fn is_empty(&self) -> bool
        ensures { result ≡ (length self.now == 0) }
    {
        self.count == 0
    }
}

impl PartialEq for Label {
    ghost use Rattle.std.specs.Prelude.{bytes_eq};
    ghost use Rattle.std.specs.Cmp.{partial_equiv_from_equiv};
    ghost use Rattle.std.specs.Cmp.Lexicographic.{nat_list_eq_equiv};

    ghost eq = { bytes_eq };

    ghost laws = { partial_equiv_from_equiv nat_list_eq_equiv };

    fn eq(&self, other: &Label) -> bool {
        self.bytes() == other.bytes()
    }
}

impl Eq for Label {
    ghost use Rattle.std.specs.Cmp.Lexicographic.{nat_list_eq_equiv};

    ghost laws = { nat_list_eq_equiv };
}

impl Default for Label {
    ghost use Rattle.std.specs.Prelude.{◌≡◌, []};

    ghost is_default = { λ l. l ≡ [] };

    fn default() -> Self {
        Label {
            bytes: [0; 24],
            count: 0,
        }
    }
}

fn is_label(text: &[u8]) -> bool
    ensures { result ≡ reads_as_label text.now }
{
    text.len() <= Label::MOST && are_all_label_bytes(text)
}

fn are_all_label_bytes(text: &[u8]) -> bool
    ensures { result ≡ are_label_bytes text.now }
{
    text.iter().all(|b| is_label_byte(*b))
}

fn is_label_byte(b: u8) -> bool
    ensures { result ≡ may_stand b }
{
    (b' '..=b'~').contains(&b) && b != b'"'
}
