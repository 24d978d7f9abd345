ghost use Rattle.std.specs.Prelude.{◌≡◌, ◌<◌, ◌+◌, ◌^◌, MatchOption};
ghost use Rattle.dxc_load.specs.Codes.{HasNoCode, HasNone, IsBehind, IsNextCode, code_of, coded_in, compld, deny};

use memchr::memchr;

/// How many commands were answered with each completion code.
#[derive(Clone, Copy, PartialEq, Eq)]
pub struct Codes {
    pub completed: u64,
    pub denied: u64,
}

/// How many bytes a response of the load has in front of its tag: a header of 30, since its SID has four, then an M and two blanks.
const FRONT: usize = 33;

/// What stands after the byte that ends a response.
#[inline(always)]
fn behind_end(text: &[u8]) -> Option<&[u8]>
    ensures { MatchOption result (HasNone 59 text.now) (λ rest. IsBehind 59 text.now rest.now) }
{
    let at = memchr(b';', text)?;
    Some(&text[at + 1..])
}

/// What stands after the first blank, before which there are few bytes.
fn behind_blank(text: &[u8]) -> Option<&[u8]>
    ensures { MatchOption result (HasNone 32 text.now) (λ rest. IsBehind 32 text.now rest.now) }
{
    for at in 0..text.len() {
        if text[at] == b' ' {
            return Some(&text[at + 1..]);
        }
    }
    None
}

/// The first letter of the next response's completion code, and what stands after it. The text begins in the response before. After the
/// tag stand a blank and the code.
fn next_code(text: &[u8]) -> Option<(u8, &[u8])>
    ensures { MatchOption result (HasNoCode text.now) (λ p. IsNextCode text.now p.0 p.1.now) }
{
    let response = behind_end(text)?;
    let tag = response.get(FRONT..)?;
    let code = behind_blank(tag)?;
    let (letter, rest) = code.split_first()?;
    Some((*letter, rest))
}

impl Codes {
    // Counts the code of this first letter.
    fn count(&mut self, letter: u8)
        requires { (self.old.completed < 2 ^ 63) × (self.old.denied < 2 ^ 63) }
        ensures completed { self.new.completed ≡ self.old.completed + code_of compld letter }
        ensures denied { self.new.denied ≡ self.old.denied + code_of deny letter }
    {
        match letter {
            b'C' => self.completed += 1,
            b'D' => self.denied += 1,
            _ => {}
        }
    }
}

/// Counts the completion codes of the responses after the first, which is the log-in's.
pub fn codes_in(written: &[u8]) -> Codes
    ensures completed { result.completed ≡ coded_in compld written.now }
    ensures denied { result.denied ≡ coded_in deny written.now }
{
    let mut codes = Codes {
        completed: 0,
        denied: 0,
    };
    let mut text = written;
    while let Some((letter, rest)) = next_code(text) {
        codes.count(letter);
        text = rest;
    }
    codes
}
