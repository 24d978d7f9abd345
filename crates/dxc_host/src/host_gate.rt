use crate::changes::Changes;
use dxc_outside::{Gate, GatePlace, Stopped};

/// The gate of the program, which never stops. It marks each change that it lets to a journal, for the links of its sessions.
#[derive(Drop)]
pub struct HostGate {
    changes: Option<Changes>,
}

impl HostGate {
    pub(crate) fn new(changes: Option<Changes>) -> HostGate {
        HostGate { changes }
    }
}

impl Gate for HostGate {
    ghost use Rattle.std.specs.Prelude.{◌≡◌, Ok};

    ghost stops = { λ _. 0 };

    ghost asked = { λ _ _ _. Unit {0} };

    ghost unasked = { λ _. tt };

    ghost asked_on = { λ _ _ _ _ _ _ _. tt };

    fn pass(&mut self, place: GatePlace) -> Result<(), Stopped>
        ensures { result ≡ Ok tt }
    {
        if let (GatePlace::Journal, Some(changes)) = (place, &self.changes) {
            changes.mark();
        }
        Ok(())
    }
}
