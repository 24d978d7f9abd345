ghost use Rattle.std.specs.Prelude.{◌≡◌, ◌^◌, ◌<◌, ◌≤◌, ℕ, Some, IfSome, decimal};
ghost use Rattle.std.specs.Char.{is_ascii_digit};
ghost use Rattle.std.specs.List.{list_all};
ghost use Rattle.dxc_num.specs.Dimensions.{Dimensions, IsInLimits};
ghost use Rattle.dxc_args.specs.Counts.{AreFew};
ghost use Rattle.dxc_args.specs.Lines.{is_number as reads_as_number};

use crate::workers::Workers;
use dxc_num::Shape;
use itoa::Buffer;

/// The number that a text spells in decimal, without a sign or a leading zero.
pub(crate) fn number_of(text: &str) -> Option<u64>
    ensures spelled { IfSome result (λ n. text.now ≡ decimal n) }
    ensures read { (n : ℕ) → n < 2 ^ 64 → text.now ≡ decimal n → result ≡ Some n }
{
    let number = text.parse::<u64>().ok()?;
    if Buffer::new().format(number) == text {
        Some(number)
    } else {
        None
    }
}

/// The number of workers that a text spells.
pub(crate) fn workers_of(text: &str) -> Option<Workers>
    ensures spelled { IfSome result (λ n. (text.now ≡ decimal n) × AreFew n) }
    ensures read { (n : ℕ) → AreFew n → text.now ≡ decimal n → result ≡ Some n }
{
    let number = number_of(text)?;
    Workers::new(number)
}

/// Whether a word is digits alone.
pub(crate) fn is_number(word: &[u8]) -> bool
    ensures { result ≡ reads_as_number word.now }
{
    match word {
        [] => false,
        [_, ..] => are_digits(word),
    }
}

fn are_digits(word: &[u8]) -> bool
    ensures { result ≡ list_all is_ascii_digit word.now }
{
    word.iter().all(|byte| byte.is_ascii_digit())
}

// The number of modules or slots that a text spells.
fn count_of(text: &str) -> Option<u16>
    ensures spelled { IfSome result (λ n. text.now ≡ decimal n) }
    ensures read { (n : ℕ) → n < 2 ^ 16 → text.now ≡ decimal n → result ≡ Some n }
{
    let count = number_of(text)?;
    if count <= u16::MAX as u64 {
        Some(count as u16)
    } else {
        None
    }
}

/// The shape of so many modules and slots, each spelled as `number_of` reads it.
pub(crate) fn shape_of(modules: &str, slots: &str) -> Option<Shape>
    ensures spelled { IfSome result (λ d.
        (modules.now ≡ decimal d.modules) × (slots.now ≡ decimal d.slots) × IsInLimits d) }
    ensures read { (d : Dimensions) → IsInLimits d
        → modules.now ≡ decimal d.modules → slots.now ≡ decimal d.slots → result ≡ Some d }
{
    let modules = count_of(modules)?;
    let slots = count_of(slots)?;
    Shape::new(modules, slots)
}
