//! What is held in lists by name, and for a worker.
ghost use Rattle.std.specs.Prelude.{◌≡◌, ◌≢◌, ◌<◌, ℕ, List, None, IfSome, length, option_map, position};
ghost use Rattle.std.specs.Str.{bytes_eq};
ghost use Rattle.dxc_outside.specs.Files.{are_lines, file_of, held_of, lines_of, without_first};

use crate::{MemLines, Name};

// The bytes of the first file of that name.
pub(crate) fn file_named<'a>(files: &'a [(Name, Vec<u8>)], name: &str) -> Option<&'a [u8]>
    ensures { option_map (λ bs. bs.now) result ≡ file_of name.now files.now }
{
    let (_, bytes) = files.iter().find(|(held, _)| held.text() == name)?;
    Some(bytes.as_slice())
}

// Where the first of that name is.
fn place_of<T>(all: &[(Name, T)], name: &str) -> Option<usize>
    ensures place { result ≡ position (λ d. bytes_eq d.0 name.now) all.now }
    ensures low { IfSome result (λ i. i < length all.now) }
{
    all.iter().position(|(held, _)| held.text() == name)
}

// Takes out the first of that name.
pub(crate) fn take_named<T>(all: &mut Vec<(Name, T)>, name: &str) -> Option<T>
    ensures taken { result ≡ held_of name.now all.old.items }
    ensures left { all.new.items ≡ without_first (λ d. bytes_eq d.0 name.now) all.old.items }
    ensures others { (n : List ℕ) → n ≢ name.now
        → held_of n all.new.items ≡ held_of n all.old.items }
    ensures none { result ≡ None → all.new.items ≡ all.old.items }
{
    let at = place_of(all, name)?;
    let (_, taken) = all.remove(at);
    Some(taken)
}

// Where the first lines of that name for that worker are.
fn place_for(lines: &[(Name, u16, MemLines)], name: &str, worker: u16) -> Option<usize>
    ensures place { result ≡ position (λ d. are_lines name.now worker d) lines.now }
    ensures low { IfSome result (λ i. i < length lines.now) }
{
    lines.iter().position(|(held, number, _)| *number == worker && held.text() == name)
}

// Takes out the first lines of that name for that worker.
pub(crate) fn take_lines(
    lines: &mut Vec<(Name, u16, MemLines)>,
    name: &str,
    worker: u16,
) -> Option<MemLines>
    ensures taken { result ≡ lines_of name.now worker lines.old.items }
    ensures left { lines.new.items ≡ without_first (λ d. are_lines name.now worker d)
        lines.old.items }
{
    let at = place_for(lines, name, worker)?;
    let (_, _, taken) = lines.remove(at);
    Some(taken)
}
