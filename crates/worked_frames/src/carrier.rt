use crate::crew::Crew;
use crate::row::frames_said;
use anyhow::Result;
use dxc_outside::{Gate, GatePlace, Stopped};
use std::alloc::Global;
use worked_common::Part;

/// A gate that stops at one asking, and at each asking has all workers carry a frame.
#[derive(Drop)]
pub struct Carrier {
    pub crew: Crew,
    // The frames that may come at an asking; none: any.
    frames: Vec<Vec<u8>>,
    stop: Option<u64>,
    askings: u64,
    // How many of the askings were before the journal, and how many before a register write.
    journal: u64,
    registers: u64,
    // Whether another frame came at an asking.
    astray: bool,
    stops: u64,
}

impl Carrier {
    /// A gate that doesn't stop.
    pub fn new(alloc: Global, crew: Crew) -> Carrier {
        Carrier {
            crew,
            frames: Vec::new(alloc),
            stop: None,
            askings: 0,
            journal: 0,
            registers: 0,
            astray: false,
            stops: 0,
        }
    }

    /// From now on askings are counted from 0, and it stops where the session says so.
    pub fn set(&mut self, alloc: Global, session: Part<'_, '_>) -> Result<()> {
        self.frames = frames_said(alloc, session, "frames")?;
        self.stop = session.number_at("stop")?;
        self.askings = 0;
        self.journal = 0;
        self.registers = 0;
        self.astray = false;
        Ok(())
    }

    /// How often it was asked before the journal, before a register write, and before the end.
    pub fn asked(&self) -> [u64; 3] {
        let counted = self.journal.saturating_add(self.registers);
        [
            self.journal,
            self.registers,
            self.askings.saturating_sub(counted),
        ]
    }

    /// Whether a frame came that may not.
    pub fn went_astray(&self) -> bool {
        self.astray
    }

    // Whether the last frame may come.
    fn may_come(&self) -> bool {
        for frame in &self.frames {
            if frame.as_slice() == self.crew.frame() {
                return true;
            }
        }
        self.frames.is_empty()
    }
}

impl Gate for Carrier {
    ghost stops = { λ g. g.stops };

    ghost asked = { λ _ _ _. Unit {0} };

    ghost unasked = { λ _. tt };

    ghost asked_on = { λ _ _ _ _ _ _ _. tt };

    fn pass(&mut self, place: GatePlace) -> Result<(), Stopped> {
        self.crew.carry();
        self.astray = self.astray || !self.may_come();
        match place {
            GatePlace::Journal => self.journal = self.journal.saturating_add(1),
            GatePlace::Register => self.registers = self.registers.saturating_add(1),
            _ => {}
        }
        let stops = self.stop == Some(self.askings);
        self.askings = self.askings.saturating_add(1);
        if !stops {
            return Ok(());
        }
        self.stops = self.stops.saturating_add(1);
        Err(Stopped)
    }
}
