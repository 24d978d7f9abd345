//! Sets of ports as bits of words: bit p % 64 of word p / 64 for port p.
ghost use Rattle.std.specs.Prelude.{◌≡◌, ◌≢◌, ◌<◌, ◌≤◌, ◌/◌, ◌*◌, ℕ, true, false, length};
ghost use Rattle.dxc_model.specs.PortSets.{has_port, IsNext};

use crate::equipment;
use dxc_num::Port;

/// Puts the port into the set.
pub fn insert(words: &mut [u64], port: Port)
    requires { port.0 / 64 < length words.old }
    ensures there { has_port words.new port.0 ≡ true }
    ensures others { (k : ℕ) → k ≢ port.0 → has_port words.new k ≡ has_port words.old k }
    ensures words { length words.new ≡ length words.old }
{
    let word = port.0 as usize / 64;
    words[word] = equipment::with(words[word], port.0 % 64);
}

/// Takes it out of the set.
pub fn remove(words: &mut [u64], port: Port)
    requires { port.0 / 64 < length words.old }
    ensures gone { has_port words.new port.0 ≡ false }
    ensures others { (k : ℕ) → k ≢ port.0 → has_port words.new k ≡ has_port words.old k }
    ensures words { length words.new ≡ length words.old }
{
    let word = port.0 as usize / 64;
    words[word] = equipment::without(words[word], port.0 % 64);
}

/// The first port of the set from this one on.
pub fn next(words: &[u64], port: u16) -> Option<usize>
    requires { length words.now ≤ 1_024 }
    ensures { IsNext words.now port result }
{
    let word = port as usize / 64;
    if word >= words.len() {
        return None;
    }
    let rest = words[word] >> (port % 64);
    if rest != 0 {
        return Some(port as usize + rest.trailing_zeros() as usize);
    }
    first(words, word + 1)
}

/// The first port of the set from this word on.
fn first(words: &[u64], word: usize) -> Option<usize>
    requires { length words.now ≤ 1_024 }
    ensures { IsNext words.now (word * 64) result }
{
    for at in word..words.len() {
        let bits = words[at];
        if bits != 0 {
            return Some(at * 64 + bits.trailing_zeros() as usize);
        }
    }
    None
}
