//! What the mover's seat makes of an OUT word that it found.
ghost use Rattle.std.specs.Prelude.{◌≡◌, ◌==◌, if◌then◌else◌, replicate, []};
ghost use Rattle.fabric_core.specs.Registers.{middle_in};
ghost use Rattle.fabric_core.specs.Passing.{seen_of};

use crate::looks::Looks;
use dxc_num::Middle;

/// The middle that an OUT word names.
pub(crate) fn middle_of(word: u64) -> Middle
    ensures { result ≡ middle_in word }
{
    Middle((word % 256).saturating_sub(1) as u8)
}

/// Forgets the looks after a switch of a leg whose OUT word was this one, where the phase Old begins.
#[inline(always)]
pub(crate) fn forget_after(found: u64, seen: &mut Looks)
    ensures { seen.new ≡ (if found == 0 then seen.old else replicate 8 (seen_of [])) }
{
    if found != 0 {
        seen.forget();
    }
}
