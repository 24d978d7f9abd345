ghost use Rattle.std.specs.Prelude.{◌≡◌, ◌⊎◌, ◌+◌, ◌≤◌, ◌++◌, true, false, length, take, OnErr, OnOk};
ghost use Rattle.dxc_disk.specs.Disks.{IsLength, IsSync, bytes_at};
ghost use Rattle.dxc_disk.specs.Replay.{overwritten};
ghost use Rattle.standby_link.specs.Fronts.{IsReadBy, IsWhole, IsWriteBy, Known};

use dxc_disk::{Disk, DiskFault};
use std::alloc::Global;
use std::marker::Model;

/// A disk that keeps in memory what calls showed of its file from the front on. So whoever stands by anew is joined without a call of it.
#[derive(Drop)]
pub(crate) struct KnownDisk<D: Disk> {
    disk: D,
    front: Vec<u8>,
    most: u64,
}

impl<D: Disk> Model for KnownDisk<D> {
    ghost use Rattle.standby_link.specs.Fronts.{Known, IsKnown};

    ghost Value = { Known D };

    ghost view = { λ k. record { disk = k.disk; front = k.front.items; most = k.most } };

    ghost invariant = { λ k. D.told → IsKnown (D.state k.disk) k.front.items k.most };
}

impl<D: Disk> KnownDisk<D> {
    pub(crate) fn new(alloc: Global, disk: D) -> KnownDisk<D>
        ensures { result.disk ≡ disk }
    {
        KnownDisk {
            disk,
            front: Vec::new(alloc),
            most: u64::MAX,
        }
    }

    pub(crate) fn into_inner(self) -> D
        ensures { result ≡ self.disk }
    {
        self.disk
    }

    /// Whether it knows its whole file.
    pub(crate) fn is_whole(&self) -> bool
        ensures whole { result ≡ true → IsWhole self.now }
        ensures part { result ≡ false → IsWhole self.now → ⊥ }
        ensures file { result ≡ true → D.told
            → self.now.front ≡ (D.state self.now.disk).reads_as }
    {
        self.most < u64::MAX && self.most <= self.front.len() as u64
    }

    pub(crate) fn front(&self) -> &[u8]
        ensures { result.now ≡ self.now.front }
    {
        &self.front
    }
}

impl<D: Disk> Disk for KnownDisk<D> {
    ghost told = { D.told };

    ghost state = { λ k. D.state k.disk };

    ghost is_disk = { λ k told. D.is_disk k.disk told };

    ghost counts_on = { λ k. D.counts_on k.disk };

    fn length(&mut self) -> Result<u64, DiskFault>
        ensures length { IsLength D.told (D.state self.old.disk) (D.state self.new.disk) result }
        ensures front { self.new.front ≡ self.old.front }
    {
        let length = self.disk.length();
        if let Ok(length) = length {
            self.most = length;
        }
        length
    }

    fn read(&mut self, at: u64, into: &mut [u8]) -> Result<(), DiskFault>
        requires { D.told → at + length into.old ≤ length (D.state self.old.disk).reads_as }
        ensures read { IsReadBy D.Disk self.old self.new result (bytes_at at into.new) }
        ensures front { length self.old.front ≤ length self.new.front }
    {
        self.disk.read(at, into)?;
        if at == self.front.len() as u64 {
            append(&mut self.front, into);
        }
        Ok(())
    }

    fn write_at(&mut self, at: u64, from: &[u8]) -> Result<(), DiskFault>
        requires within { D.told → at ≤ length (D.state self.old.disk).reads_as }
        requires short { length from.now ≤ 4096 }
        ensures write { IsWriteBy D.Disk self.old self.new result (bytes_at at from.now) }
        ensures front { OnOk result (length self.old.front ≤ length self.new.front) }
        ensures cut { OnErr result (self.new.front ≡ take at self.old.front) }
    {
        let written = self.disk.write_at(at, from);
        self.most = self.most.max(at.saturating_add(from.len() as u64));
        if at <= self.front.len() as u64 {
            let at = at as usize;
            match written {
                Ok(()) => write_over(&mut self.front, at, from),
                Err(DiskFault) => self.front.truncate(at),
            }
        }
        written
    }

    fn sync(&mut self) -> Result<(), DiskFault>
        ensures sync { IsSync D.told (D.state self.old.disk) (D.state self.new.disk) result }
        ensures front { self.new.front ≡ self.old.front }
        ensures most { self.new.most ≡ self.old.most }
    {
        self.disk.sync()
    }
}

// Appends, if there is memory for it.
fn append(front: &mut Vec<u8>, from: &[u8])
    ensures { (front.new.items ≡ front.old.items)
        ⊎ (front.new.items ≡ front.old.items ++ from.now) }
{
    if front.reserve(from.len()).is_ok() {
        let _ = front.extend_from_slice(from);
    }
}

// Writes over a part.
fn write_within(front: &mut Vec<u8>, at: usize, from: &[u8])
    requires { at + length from.now ≤ length front.old.items }
    ensures { front.new.items ≡ overwritten at from.now front.old.items }
{
    front[at..at + from.len()].copy_from_slice(from);
}

// Writes over a part, and past the end as far as there is memory for that.
fn write_over(front: &mut Vec<u8>, at: usize, from: &[u8])
    requires { at ≤ length front.old.items }
    ensures begins { take (length front.new.items) (overwritten at from.now front.old.items)
        ≡ front.new.items }
    ensures longer { length front.old.items ≤ length front.new.items }
{
    let over = from.len().min(front.len() - at);
    write_within(front, at, &from[..over]);
    append(front, &from[over..]);
}
