ghost use Rattle.std.specs.Prelude.{IsErr, ◌≡◌};
ghost use Rattle.dxc_causes.specs.Causes.{HasCause};

use crate::crash::Crash;
use crate::levers::Levers;
use crate::torn::{Torn, overwrite};
use dxc_disk::{Disk, DiskFault};
use std::sync::Arc;

/// A disk in memory on which a row lets a call fail, and which reads as other bytes than it holds while the row says so. It tells nothing of its
/// content. Where it is dropped it leaves its bytes, or what a crash leaves of them, with its levers.
pub struct RowDisk {
    held: Vec<u8>,
    shown: Vec<u8>,
    torn: Torn,
    levers: Arc<Levers>,
    crash: Option<Crash>,
    faults: u64,
}

impl RowDisk {
    /// A disk that holds the one bytes and may read as the others. A crash comes once it is dropped.
    pub fn new(
        held: Vec<u8>,
        shown: Vec<u8>,
        torn: Torn,
        levers: Arc<Levers>,
        crash: Option<Crash>,
    ) -> RowDisk {
        RowDisk {
            held,
            shown,
            torn,
            levers,
            crash,
            faults: 0,
        }
    }

    // Counts a fault where the call failed.
    fn counted<T>(answer: Option<T>, faults: &mut u64) -> Result<T, DiskFault>
        ensures { HasCause faults.old faults.new (IsErr result) }
    {
        match answer {
            Some(value) => Ok(value),
            None => {
                *faults = faults.saturating_add(1);
                Err(DiskFault)
            }
        }
    }

    // What reads give.
    fn reads_as(&self) -> &[u8] {
        if self.levers.shows() {
            &self.shown
        } else {
            &self.held
        }
    }

    fn read_at(&self, at: u64, into: &mut [u8]) -> Option<()> {
        if self.levers.fails() {
            return None;
        }
        let from = self.reads_as().get(at as usize..)?;
        into.copy_from_slice(from.get(..into.len())?);
        Some(())
    }

    fn write(&mut self, at: usize, from: &[u8]) -> Option<()>
        ensures { self.new.faults ≡ self.old.faults }
    {
        if self.levers.write_fails() {
            let _ = self.torn.leave(&mut self.held, at, from);
            return None;
        }
        if at > self.held.len() {
            return None;
        }
        if let Some(crash) = &mut self.crash {
            crash.note(&self.held, at, from).ok()?;
        }
        overwrite(&mut self.held, at, from).ok()
    }

    fn sync_all(&mut self) -> Option<()>
        ensures { self.new.faults ≡ self.old.faults }
    {
        if self.levers.write_fails() {
            return None;
        }
        if let Some(crash) = &mut self.crash {
            crash.sync();
        }
        Some(())
    }
}

impl Disk for RowDisk {
    ghost use Rattle.std.specs.Prelude.{[]};
    ghost use Rattle.dxc_disk.specs.ReplayLaws.{no_room};

    ghost told = { ⊥ };

    ghost state = { λ d. record {
      reads_as = [];
      may_leave = λ _. Unit {0};
      moment = 0;
      left_since = λ _ _. Unit {0};
      readings = [];
      synced = 0;
      faults = d.faults;
      margin = 0;
      room = 0;
    } };

    ghost is_disk = { λ d told. absurd told };

    ghost counts_on = { λ d. no_room d.faults };

    fn length(&mut self) -> Result<u64, DiskFault> {
        let fails = self.levers.fails();
        let length = self.reads_as().len() as u64;
        RowDisk::counted((!fails).then_some(length), &mut self.faults)
    }

    fn read(&mut self, at: u64, into: &mut [u8]) -> Result<(), DiskFault> {
        let read = self.read_at(at, into);
        RowDisk::counted(read, &mut self.faults)
    }

    fn write_at(&mut self, at: u64, from: &[u8]) -> Result<(), DiskFault> {
        let written = self.write(at as usize, from);
        RowDisk::counted(written, &mut self.faults)
    }

    fn sync(&mut self) -> Result<(), DiskFault> {
        let synced = self.sync_all();
        RowDisk::counted(synced, &mut self.faults)
    }
}

impl Drop for RowDisk {
    fn drop(self) {
        let RowDisk {
            mut held,
            shown: _,
            torn: _,
            levers,
            crash,
            faults: _,
        } = self;
        if let Some(crash) = &crash {
            let _ = crash.come(&mut held);
        }
        levers.note_left(held);
    }
}
