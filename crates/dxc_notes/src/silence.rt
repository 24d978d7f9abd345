ghost use Rattle.std.specs.Prelude.{◌≡◌, [], None};

use crate::{Note, Notes, Standing};

/// Where nobody is told anything, and nobody tells anything.
#[derive(Clone, Copy, Drop)]
pub struct Silence;

impl Notes for Silence {
    ghost noted = { λ _ _ _. Unit {0} };

    ghost unnoted = { λ _. tt };

    ghost noted_on = { λ _ _ _. λ _ _. λ _ _. tt };

    #[inline(always)]
    fn note(&mut self, _: Note) {}

    fn standing(&self) -> Standing
        ensures version { result.version ≡ None }
        ensures since { result.since ≡ None }
        ensures standby { result.standby ≡ None }
        ensures sessions { result.sessions.items ≡ [] }
    {
        Standing::unknown()
    }
}
