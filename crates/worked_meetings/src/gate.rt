use crate::meeting::Meeting;
use dxc_outside::{Gate, GatePlace, Stopped};
use std::sync::Arc;

/// What a gate does at one of its askings.
#[derive(Clone, Copy)]
pub enum Act {
    Stop,
    /// It comes to the one point, and goes on when the other was come to.
    Hold { here: usize, there: usize },
}

/// Where a gate does it: the asking of this number, from 0.
#[derive(Drop)]
pub struct Cued {
    pub rt: HostRuntime,
    pub meeting: Arc<Meeting>,
    pub asking: u64,
    pub act: Act,
}

impl Cued {
    // Whether the gate goes on there. It stops too where a hold was in vain.
    fn goes_on(&self) -> bool {
        match self.act {
            Act::Stop => false,
            Act::Hold { here, there } => {
                self.meeting.reach(here);
                self.meeting.wait_past(&self.rt, there, 0)
            }
        }
    }
}

/// The gate of a session or a worker, which goes on but where it is cued otherwise.
#[derive(Drop)]
pub struct CuedGate {
    cued: Option<Cued>,
    asked: u64,
    stops: u64,
}

impl CuedGate {
    pub fn new(cued: Option<Cued>) -> CuedGate {
        CuedGate {
            cued,
            asked: 0,
            stops: 0,
        }
    }
}

impl Gate for CuedGate {
    ghost stops = { λ g. g.stops };

    ghost asked = { λ _ _ _. Unit {0} };

    ghost unasked = { λ _. tt };

    ghost asked_on = { λ _ _ _ _ _ _ _. tt };

    fn pass(&mut self, _place: GatePlace) -> Result<(), Stopped> {
        let asking = self.asked;
        self.asked = self.asked.saturating_add(1);
        if let Some(cued) = &self.cued {
            if cued.asking == asking && !cued.goes_on() {
                self.stops = self.stops.saturating_add(1);
                return Err(Stopped);
            }
        }
        Ok(())
    }
}
