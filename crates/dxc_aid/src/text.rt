// Texts of fixed capacity.
ghost use Rattle.std.specs.Prelude.{◌≡◌, ◌≤◌, ◌+◌, ◌++◌, [], length, take};

use std::marker::Model;

/// A text that is being written, of at most N bytes. What is put after it has its length in its type, so that it takes a
/// few moves and no call.
#[derive(Drop)]
pub struct Text<const N: usize> {
    bytes: [u8; N],
    len: usize,
}

impl<const N: usize> Model for Text<N> {
    ghost use Rattle.std.specs.Prelude.{◌≡◌, ◌≤◌, ℕ, List, length, take};

    ghost Value = { List ℕ };

    ghost view = { λ t. take t.len t.bytes };

    ghost invariant = { λ t. (t.len ≤ N) × (length t.bytes ≡ N) };
}

impl<const N: usize> Text<N> {
    /// An empty text.
    pub fn new() -> Text<N>
        ensures { result ≡ [] }
    {
        Text {
            bytes: [0; N],
            len: 0,
        }
    }

    /// Leaves nothing.
    pub fn clear(&mut self)
        ensures { self.new ≡ [] }
    {
        self.len = 0;
    }

    /// Leaves the first `len` bytes.
    pub fn cut(&mut self, len: usize)
        requires { len ≤ length self.old }
        ensures { self.new ≡ take len self.old }
    {
        self.len = len;
    }

    /// How many bytes it has.
    pub fn len(&self) -> usize
        ensures value { result ≡ length self.now }
        ensures fits { result ≤ N }
    {
        self.len
    }

    /// The bytes so far.
    pub fn bytes(&self) -> &[u8]
        ensures { result.now ≡ self.now }
    {
        &self.bytes[..self.len]
    }

    /// Puts a text after whose length is known.
    #[inline(always)]
    pub fn put<const M: usize>(&mut self, text: &[u8; M])
        requires { length self.old + M ≤ N }
        ensures text { self.new ≡ self.old ++ text.now }
        ensures len { length self.new ≡ length self.old + M }
    {
        // A copy is known to lie apart from the bytes.
        let text = *text;
        self.append_long(&text);
    }

    /// Puts a text of any length after; one of at most 64 bytes, as most are, by two moves.
    #[inline(always)]
    pub fn append(&mut self, text: &[u8])
        requires { length self.old + length text.now ≤ N }
        ensures text { self.new ≡ self.old ++ text.now }
        ensures len { length self.new ≡ length self.old + length text.now }
    {
        match text.len() {
            2..=4 => self.put_ends::<2>(text),
            5..=8 => self.put_ends::<4>(text),
            9..=16 => self.put_ends::<8>(text),
            17..=32 => self.put_ends::<16>(text),
            33..=64 => self.put_ends::<32>(text),
            _ => self.append_long(text),
        }
    }

    /// Puts a text after by its first bytes and its last, which may lie over one another.
    #[inline(always)]
    fn put_ends<const M: usize>(&mut self, text: &[u8])
        requires least { M ≤ length text.now }
        requires most { length text.now ≤ M + M }
        requires room { length self.old + length text.now ≤ N }
        ensures text { self.new ≡ self.old ++ text.now }
        ensures len { length self.new ≡ length self.old + length text.now }
    {
        let (Some((first, _)), Some((front, last))) = (
            text.split_first_chunk::<M>(),
            text.split_last_chunk::<M>(),
        ) else {
            unreachable!()
        };
        let kept = self.len() + front.len();
        self.put(first);
        self.cut(kept);
        self.put(last);
    }

    #[inline(always)]
    fn append_long(&mut self, text: &[u8])
        requires { length self.old + length text.now ≤ N }
        ensures text { self.new ≡ self.old ++ text.now }
        ensures len { length self.new ≡ length self.old + length text.now }
    {
        let (at, end) = (self.len, self.len + text.len());
        let bytes = &mut self.bytes[..];
        bytes[at..end].copy_from_slice(text);
        self.len = end;
    }
}
