ghost use Rattle.std.specs.Prelude.{◌≡◌, [], true, false, IfOk, OnOk, IsErr};
ghost use Rattle.dxc_causes.specs.Causes.{HasCause};
ghost use Rattle.dxc_host.specs.HostDisks.{host_disk, is_copied};

use crate::file_copy::FileCopy;
use crate::staged_file::StagedFile;
use dxc_disk::{Disk, DiskFault, FileDisk};
use std::alloc::Global;
use std::fs::File;
use std::io::{self, ErrorKind};
use std::rt::Files;

/// The longest file that a making of a journal which was broken off leaves.
const LONGEST_BEGUN: u64 = 33;

/// The first byte of a journal that is whole, and of one whose making was broken off.
const SEALED: u8 = 0xA5;

const UNSEALED: u8 = 0;

/// The file of a journal, one that is to become the copy of another, or a copy in memory for who only looks. It tells nothing of its content.
#[derive(Drop)]
pub struct HostDisk {
    bytes: Bytes,
    faults: u64,
}

#[derive(Drop)]
enum Bytes {
    File(FileDisk),
    Copy(FileCopy),
    Staged(StagedFile),
}

impl Bytes {
    fn length(&mut self) -> Result<u64, DiskFault>
        ensures { is_copied self.new ≡ is_copied self.old }
    {
        match self {
            Bytes::File(file) => file.length(),
            Bytes::Copy(copy) => Ok(copy.length()),
            Bytes::Staged(file) => file.length(),
        }
    }

    #[inline(always)]
    fn read(&mut self, at: u64, into: &mut [u8]) -> Result<(), DiskFault>
        ensures { is_copied self.new ≡ is_copied self.old }
    {
        match self {
            Bytes::File(file) => file.read(at, into),
            Bytes::Copy(copy) => copy.read(at, into),
            Bytes::Staged(file) => file.read(at, into),
        }
    }

    // A file that is too short for a journal is to be empty, or what a broken making leaves: no other becomes one.
    fn is_of_journal(&mut self) -> Result<bool, DiskFault>
        ensures { is_copied self.new ≡ is_copied self.old }
    {
        let length = self.length()?;
        if length == 0 || LONGEST_BEGUN < length {
            return Ok(true);
        }
        let mut first = [0];
        self.read(0, &mut first)?;
        Ok(first[0] == SEALED || first[0] == UNSEALED)
    }

    fn write_at(&mut self, at: u64, from: &[u8]) -> Result<(), DiskFault>
        ensures { is_copied self.new ≡ is_copied self.old }
    {
        match self {
            Bytes::File(file) => file.write_at(at, from),
            Bytes::Copy(copy) => copy.write_at(at, from),
            Bytes::Staged(file) => file.write_at(at, from),
        }
    }

    fn sync(&mut self) -> Result<(), DiskFault>
        ensures { is_copied self.new ≡ is_copied self.old }
    {
        match self {
            Bytes::File(file) => file.sync(),
            Bytes::Copy(_) => Ok(()),
            Bytes::Staged(file) => file.sync(),
        }
    }
}

impl HostDisk {
    /// The file of that path, of which the disk is the one owner. It is made where it isn't there.
    pub(crate) fn open<R: Files<File = File>>(
        alloc: Global,
        files: &R,
        path: &str,
    ) -> io::Result<HostDisk>
        ensures faults { IfOk result (λ disk. disk.faults ≡ 0) }
        ensures kind { IfOk result (λ disk. is_copied disk.bytes ≡ false) }
    {
        HostDisk::of_file(FileDisk::open(alloc, files, path)?)
    }

    /// That file, which holds a journal or the beginning of one.
    pub(crate) fn of_file(file: FileDisk) -> io::Result<HostDisk>
        ensures faults { IfOk result (λ disk. disk.faults ≡ 0) }
        ensures kind { IfOk result (λ disk. is_copied disk.bytes ≡ false) }
    {
        HostDisk::of_journal(Bytes::File(file))
    }

    /// The file of a copy that is to be made.
    pub(crate) fn staged(file: StagedFile) -> HostDisk
        ensures faults { result.faults ≡ 0 }
        ensures kind { is_copied result.bytes ≡ false }
    {
        HostDisk {
            bytes: Bytes::Staged(file),
            faults: 0,
        }
    }

    /// A copy of the file of that path. What is done to the disk changes no file.
    pub(crate) fn copy<R: Files<File = File>>(
        alloc: Global,
        files: &R,
        path: &str,
    ) -> io::Result<HostDisk>
        ensures faults { IfOk result (λ disk. disk.faults ≡ 0) }
        ensures kind { IfOk result (λ disk. is_copied disk.bytes ≡ true) }
    {
        HostDisk::of_journal(Bytes::Copy(FileCopy::open(alloc, files, path)?))
    }

    fn of_journal(mut bytes: Bytes) -> io::Result<HostDisk>
        ensures faults { IfOk result (λ disk. disk.faults ≡ 0) }
        ensures kind { IfOk result (λ disk. is_copied disk.bytes ≡ is_copied bytes) }
    {
        match bytes.is_of_journal() {
            Ok(true) => Ok(HostDisk { bytes, faults: 0 }),
            Ok(false) => {
                let told = "it holds something else than a journal or the beginning of one";
                Err(io::Error::new(ErrorKind::InvalidData, told))
            }
            Err(DiskFault) => Err(io::Error::other("it can't be read")),
        }
    }

    // Counts a fault where the call failed.
    fn counted<T>(&mut self, answer: Result<T, DiskFault>) -> Result<T, DiskFault>
        ensures same { result ≡ answer }
        ensures cause { HasCause self.old.faults self.new.faults (IsErr result) }
        ensures no_fault { OnOk result (self.new.faults ≡ self.old.faults) }
        ensures bytes { self.new.bytes ≡ self.old.bytes }
    {
        if answer.is_err() {
            self.faults = self.faults.saturating_add(1);
        }
        answer
    }
}

impl Disk for HostDisk {
    ghost use Rattle.dxc_disk.specs.ReplayLaws.{no_room};

    ghost told = { ⊥ };

    ghost state = { host_disk };

    ghost is_disk = { λ d told. absurd told };

    ghost counts_on = { λ d. no_room d.faults };

    fn length(&mut self) -> Result<u64, DiskFault>
        ensures cause { HasCause self.old.faults self.new.faults (IsErr result) }
        ensures no_fault { OnOk result (self.new.faults ≡ self.old.faults) }
        ensures kind { is_copied self.new.bytes ≡ is_copied self.old.bytes }
    {
        let length = self.bytes.length();
        self.counted(length)
    }

    #[inline(always)]
    fn read(&mut self, at: u64, into: &mut [u8]) -> Result<(), DiskFault>
        ensures cause { HasCause self.old.faults self.new.faults (IsErr result) }
        ensures no_fault { OnOk result (self.new.faults ≡ self.old.faults) }
        ensures kind { is_copied self.new.bytes ≡ is_copied self.old.bytes }
    {
        let read = self.bytes.read(at, into);
        self.counted(read)
    }

    fn write_at(&mut self, at: u64, from: &[u8]) -> Result<(), DiskFault>
        ensures cause { HasCause self.old.faults self.new.faults (IsErr result) }
        ensures no_fault { OnOk result (self.new.faults ≡ self.old.faults) }
        ensures kind { is_copied self.new.bytes ≡ is_copied self.old.bytes }
    {
        let written = self.bytes.write_at(at, from);
        self.counted(written)
    }

    fn sync(&mut self) -> Result<(), DiskFault>
        ensures cause { HasCause self.old.faults self.new.faults (IsErr result) }
        ensures no_fault { OnOk result (self.new.faults ≡ self.old.faults) }
        ensures kind { is_copied self.new.bytes ≡ is_copied self.old.bytes }
    {
        let synced = self.bytes.sync();
        self.counted(synced)
    }
}
