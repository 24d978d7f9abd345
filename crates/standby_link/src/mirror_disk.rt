ghost use Rattle.std.specs.Prelude.{◌≡◌, ◌+◌, ◌^◌, ◌≤◌, ◌<◌, length, None, MatchOption, IsSomeAnd};
ghost use Rattle.dxc_disk.specs.Disks.{IsLength, IsRead, IsWrite, IsSync, Looks, Spends, bytes_at};
ghost use Rattle.standby_link.specs.Lines.{line_at, IsHungUp};
ghost use Rattle.standby_link.specs.Moves.{Both, mirrored, first_line, TellsWrite, StepsByWrite, TookHaves, IsSmall, mirror_of};
ghost use Rattle.standby_link.specs.Acts.{pieces};
ghost use Rattle.standby_link.specs.Joinings.{JoinsFrom, SyncsOn, TellsOrJoins, over};
ghost use Rattle.standby_link.specs.Mirrors.{joining};

use crate::joins::{join_anew, join_file};
use crate::known_disk::KnownDisk;
use crate::line::Line;
use crate::mirror::Mirror;
use dxc_disk::{Disk, DiskFault};
use dxc_outside::Link;
use std::alloc::Global;

/// A disk that tells a standby over a link what is written to it and when it is synced. To contracts it is the disk below; what is
/// lost of the mirror doesn't fail a call. It keeps the file in memory, so that whoever stands by anew is joined without a call of
/// the disk; where there is no memory for that, or the disk failed and wasn't written there again, nobody is.
#[derive(Drop)]
pub struct MirrorDisk<D: Disk, K: Link> {
    disk: KnownDisk<D>,
    pub(crate) line: Option<Line<K>>,
}

impl<D: Disk, K: Link> MirrorDisk<D, K> {
    /// A disk with no standby, for good.
    pub fn alone(alloc: Global, disk: D) -> MirrorDisk<D, K>
        ensures disk { result.disk.disk ≡ disk }
        ensures line { result.line ≡ None }
    {
        MirrorDisk {
            disk: KnownDisk::new(alloc, disk),
            line: None,
        }
    }

    /// Sends the disk's file and a sync to the standby, and waits for its Have. Where that comes the mirror is Joined, else it
    /// is Lost until somebody stands by anew; the disk serves in either case. It makes one call on the disk and one for each piece, so a disk that
    /// was sound for one more than its bytes stays sound for the rest.
    pub fn join(alloc: Global, disk: D, link: K) -> MirrorDisk<D, K>
        ensures looks { D.told → Looks (D.state disk) (D.state result.disk.disk) }
        ensures faults { (D.state disk).faults ≤ (D.state result.disk.disk).faults }
        ensures room { D.told → Spends (1 + length (D.state disk).reads_as)
            (D.state disk) (D.state result.disk.disk) }
        ensures line { IsSomeAnd result.line
            (λ l. JoinsFrom (over D.Disk K.Link) disk result.disk.disk link l) }
        ensures step { D.told → IsSmall 0 0 (D.state disk).reads_as
            → length (pieces 0 (D.state disk).reads_as) + 1 < 2 ^ 64
            → IsSomeAnd result.line (λ l. TookHaves D.told K.told (first_line (K.state link))
            (mirrored (D.state result.disk.disk) (line_at K.state l))
            (joining (D.state disk).reads_as)) }
        ensures hung_up { IsSomeAnd result.line
            (λ l. IsHungUp None l.lost (K.hung_up link) (K.hung_up l.link)) }
    {
        let mut disk = KnownDisk::new(alloc, disk);
        let mut line = Line::new(link);
        join_file(&mut disk, &mut line);
        MirrorDisk {
            disk,
            line: Some(line),
        }
    }

    /// The disk, with no mirror any more: what is done to it from here on isn't sent.
    pub fn into_inner(self) -> D
    where
        K: Drop,
        ensures { result ≡ self.disk.disk }
    {
        self.disk.into_inner()
    }

    /// How the disk stands to its standby.
    pub fn mirror(&self) -> Mirror
        ensures { MatchOption self.now.line (result ≡ Mirror.Alone)
            (λ l. result ≡ mirror_of l.lost) }
    {
        match &self.line {
            None => Mirror::Alone,
            Some(line) => match line.lost {
                None => Mirror::Joined,
                Some(lost) => Mirror::Lost(lost),
            },
        }
    }
}

impl<D: Disk, K: Link> Disk for MirrorDisk<D, K> {
    ghost told = { D.told };

    ghost state = { λ m. D.state m.disk.disk };

    ghost is_disk = { λ m told. D.is_disk m.disk.disk told };

    ghost counts_on = { λ m. D.counts_on m.disk.disk };

    fn length(&mut self) -> Result<u64, DiskFault>
        ensures length { IsLength D.told (D.state self.old.disk.disk)
            (D.state self.new.disk.disk) result }
        ensures line { self.new.line ≡ self.old.line }
    {
        self.disk.length()
    }

    fn read(&mut self, at: u64, into: &mut [u8]) -> Result<(), DiskFault>
        requires { D.told → at + length into.old ≤ length (D.state self.old.disk.disk).reads_as }
        ensures read { IsRead D.told (D.state self.old.disk.disk)
            (D.state self.new.disk.disk) result (bytes_at at into.new) }
        ensures line { self.new.line ≡ self.old.line }
    {
        self.disk.read(at, into)
    }

    fn write_at(&mut self, at: u64, from: &[u8]) -> Result<(), DiskFault>
        requires within { D.told → at ≤ length (D.state self.old.disk.disk).reads_as }
        requires short { length from.now ≤ 4096 }
        ensures write { IsWrite D.told (D.state self.old.disk.disk)
            (D.state self.new.disk.disk) result (bytes_at at from.now) }
        ensures tells { Both self.old.line self.new.line
            (λ l m. TellsWrite K.told (line_at K.state l) (line_at K.state m)
            (bytes_at at from.now) result) }
        ensures steps { Both self.old.line self.new.line
            (λ l m. StepsByWrite D.told (mirrored (D.state self.old.disk.disk) (line_at K.state l))
            (mirrored (D.state self.new.disk.disk) (line_at K.state m))
            (bytes_at at from.now) result) }
        ensures hung_up { Both self.old.line self.new.line
            (λ l m. IsHungUp l.lost m.lost (K.hung_up l.link) (K.hung_up m.link)) }
    {
        let written = self.disk.write_at(at, from);
        tell_write(&mut self.line, written, at, from);
        written
    }

    /// Where the line is lost and somebody stands by anew, that one is joined after the sync.
    fn sync(&mut self) -> Result<(), DiskFault>
        ensures sync { IsSync D.told (D.state self.old.disk.disk)
            (D.state self.new.disk.disk) result }
        ensures syncs { Both self.old.line self.new.line
            (λ l m. SyncsOn (over D.Disk K.Link) (self.old.disk, l) (self.new.disk, m)
            result) }
    {
        match &mut self.line {
            None => self.disk.sync(),
            Some(line) => sync_on(&mut self.disk, line),
        }
    }
}

// Syncs the disk, and lets the standby have that. Where none is joined, and somebody stands by anew, that one is joined.
fn sync_on<D: Disk, K: Link>(disk: &mut KnownDisk<D>, line: &mut Line<K>) -> Result<(), DiskFault>
    ensures sync { IsSync D.told (D.state disk.old.disk) (D.state disk.new.disk) result }
    ensures syncs { SyncsOn (over D.Disk K.Link) (disk.old, line.old) (disk.new, line.new)
        result }
{
    match disk.sync() {
        Ok(()) => {
            tell_sync(disk, line);
            Ok(())
        }
        Err(DiskFault) => {
            line.end();
            Err(DiskFault)
        }
    }
}

// A sync was made: it is told over the line, or somebody new is joined, if the file is known.
fn tell_sync<D: Disk, K: Link>(disk: &KnownDisk<D>, line: &mut Line<K>)
    ensures told { TellsOrJoins (over D.Disk K.Link) disk.now line.old line.new }
{
    match line.lost {
        None => line.sync(),
        Some(_) => {
            if disk.is_whole() {
                join_anew(disk, line);
            }
        }
    }
}

// Sends what was written, if there is a standby.
fn tell_write<K: Link>(
    line: &mut Option<Line<K>>,
    written: Result<(), DiskFault>,
    at: u64,
    from: &[u8],
)
    ensures tells { Both line.old line.new
        (λ l m. TellsWrite K.told (line_at K.state l) (line_at K.state m)
        (bytes_at at from.now) written) }
    ensures hung_up { Both line.old line.new
        (λ l m. IsHungUp l.lost m.lost (K.hung_up l.link) (K.hung_up m.link)) }
{
    let Some(line) = line else { return };
    match written {
        Ok(()) => line.write(at, from),
        Err(_) => line.end(),
    }
}
