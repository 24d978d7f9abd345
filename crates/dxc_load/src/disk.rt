ghost use Rattle.std.specs.Prelude.{◌≡◌, ◌+◌, ◌≤◌, ◌<◌, ◌^◌, false, true, [], length};

use dxc_causes::NoMemory;
use dxc_disk::{Disk, DiskFault, MemDisk};
use std::alloc::Global;

/// A disk that tells whether a call of it failed.
pub trait Noting: Disk {
    /// Where none did, its count of faults stands at 0; where one did, above it.
    fn has_failed(&self) -> bool
        ensures none { result ≡ false → (Self.state self.now).faults ≡ 0 }
        ensures some { result ≡ true → 0 < (Self.state self.now).faults };
}

/// The disk of the load's journal: one in memory, which notes that a call failed.
#[derive(Drop)]
pub struct LoadDisk {
    inner: MemDisk,
    failed: bool,
    ghost noted: { failed ≡ false → inner.faults ≡ 0 },
    ghost counted: { failed ≡ true → 0 < inner.faults },
}

impl LoadDisk {
    ghost use Rattle.std.specs.Prelude.{IfOk};
    ghost use Rattle.dxc_disk.specs.Fresh.{IsFresh};
    ghost use Rattle.dxc_load.specs.Storing.{load_disk};

    /// A disk without bytes, with room for so many calls and written bytes.
    pub fn with_room(alloc: Global, room: usize) -> Result<LoadDisk, NoMemory>
        requires { room < 2 ^ 63 }
        ensures { IfOk result (λ d. IsFresh (load_disk d) [] [] room) }
    {
        let inner = MemDisk::with_room(alloc, Vec::new(alloc), Vec::new(alloc), room)?;
        Ok(LoadDisk {
            inner,
            failed: false,
        })
    }
}

impl Noting for LoadDisk {
    fn has_failed(&self) -> bool {
        self.failed
    }
}

impl Disk for LoadDisk {
    ghost use Rattle.dxc_load.specs.Storing.{load_counts_on, load_disk, load_is_disk};

    ghost told = { Unit {0} };

    ghost state = { load_disk };

    ghost is_disk = { λ d told. load_is_disk d };

    ghost counts_on = { λ d. load_counts_on d };

    fn length(&mut self) -> Result<u64, DiskFault> {
        let length = self.inner.length();
        self.failed |= length.is_err();
        length
    }

    fn read(&mut self, at: u64, into: &mut [u8]) -> Result<(), DiskFault> {
        let read = self.inner.read(at, into);
        self.failed |= read.is_err();
        read
    }

    fn write_at(&mut self, at: u64, from: &[u8]) -> Result<(), DiskFault> {
        let written = self.inner.write_at(at, from);
        self.failed |= written.is_err();
        written
    }

    fn sync(&mut self) -> Result<(), DiskFault> {
        let synced = self.inner.sync();
        self.failed |= synced.is_err();
        synced
    }
}
