ghost use Rattle.std.specs.Prelude.{◌≡◌, ◌++◌, IfOk};
ghost use Rattle.std.specs.Vec.Iter.{into_iter_items};
ghost use Rattle.dxc_console.specs.Given.{after_name, texts_of};
ghost use Rattle.dxc_args.specs.declared.line.Line.{Line};
ghost use Rattle.dxc_args.specs.Lines.{IsLine};
ghost use Rattle.dxc_console.specs.Words.{is_look, looks_only};

use dxc_causes::NoMemory;
use dxc_outside::Name;
use std::alloc::Global;
use std::env::{self, Args, Env};
use std::io::ErrorKind;

/// Appends the words after the program's name. Where one of them is no UTF-8 text, there are none.
pub fn words_given<R: Env + AllocGlobal>(rt: &R, words: &mut Vec<Name>) -> Result<(), NoMemory> {
    match env::args(rt) {
        Ok(args) => add_words(args, words),
        Err(error) if error.kind() == ErrorKind::InvalidData => Ok(()),
        Err(_) => Err(NoMemory),
    }
}

// Appends all of them but the first, which is the program's name.
fn add_words(mut args: Args, words: &mut Vec<Name>) -> Result<(), NoMemory>
    ensures { IfOk result (λ _. words.new.items
        ≡ words.old.items ++ texts_of (after_name (into_iter_items args))) }
{
    let _program = args.next();
    for word in args {
        words.push(Name::of(word))?;
    }
    Ok(())
}

/// Whether the words are of a mode that changes no file, whatever comes after it.
pub fn only_look(words: &[Name]) -> bool
    ensures look { result ≡ is_look words.now }
    ensures line { (l : Line) → IsLine words.now l → result ≡ looks_only l }
{
    match words.first() {
        Some(mode) => matches!(mode.text(), "check" | "export"),
        None => false,
    }
}
