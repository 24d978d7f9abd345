//! How a standby is joined: the file is sent over a new line, and a sync, whose Have is waited for.
ghost use Rattle.std.specs.Prelude.{◌≡◌, ◌+◌, ◌-◌, ◌^◌, ◌≤◌, ◌<◌, length, None, IsSome};
ghost use Rattle.dxc_disk.specs.Disks.{Looks, Spends};
ghost use Rattle.standby_link.specs.Acts.{pieces};
ghost use Rattle.standby_link.specs.Fronts.{IsWhole};
ghost use Rattle.standby_link.specs.Joinings.{JoinsOver, TellsOrJoins, over};
ghost use Rattle.standby_link.specs.Lines.{line_at, IsHungUp};
ghost use Rattle.standby_link.specs.Mirrors.{joining};
ghost use Rattle.standby_link.specs.Moves.{IsSmall, SendsFile, TookHaves, first_line, mirrored};

use crate::known_disk::KnownDisk;
use crate::line::Line;
use dxc_disk::{Disk, MOST_WRITTEN};
use dxc_outside::Link;

/// Joins somebody who stands by anew, if anybody does.
pub(crate) fn join_anew<D: Disk, K: Link>(disk: &KnownDisk<D>, line: &mut Line<K>)
    requires lost { IsSome line.old.lost }
    requires whole { IsWhole disk.now }
    requires file { D.told → disk.now.front ≡ (D.state disk.now.disk).reads_as }
    ensures told { TellsOrJoins (over D.Disk K.Link) disk.now line.old line.new }
{
    if line.begins_anew() {
        join_known(disk, line);
    }
}

// Sends the file as it is known, and a sync, over a new line, and waits for its Have.
fn join_known<D: Disk, K: Link>(disk: &KnownDisk<D>, new_line: &mut Line<K>)
    requires file { D.told → disk.now.front ≡ (D.state disk.now.disk).reads_as }
    requires here { new_line.old.lost ≡ None }
    requires first { new_line.old.number ≡ 0 }
    requires none_held { new_line.old.ear.held ≡ 0 }
    ensures line { JoinsOver (over D.Disk K.Link) disk.now.disk disk.now.disk new_line.old
        new_line.new }
    ensures step { D.told → IsSmall 0 0 (D.state disk.now.disk).reads_as
        → length (pieces 0 (D.state disk.now.disk).reads_as) + 1 < 2 ^ 64
        → TookHaves D.told K.told (first_line (K.state new_line.old.link))
        (mirrored (D.state disk.now.disk) (line_at K.state new_line.new))
        (joining (D.state disk.now.disk).reads_as) }
    ensures hung_up { IsHungUp None new_line.new.lost (K.hung_up new_line.old.link)
        (K.hung_up new_line.new.link) }
{
    new_line.write(0, disk.front());
    new_line.sync();
}

/// Sends the file and a sync over a new line, and waits for its Have.
pub(crate) fn join_file<D: Disk, K: Link>(disk: &mut D, line: &mut Line<K>)
    requires here { line.old.lost ≡ None }
    requires first { line.old.number ≡ 0 }
    requires none_held { line.old.ear.held ≡ 0 }
    ensures looks { D.told → Looks (D.state disk.old) (D.state disk.new) }
    ensures faults { (D.state disk.old).faults ≤ (D.state disk.new).faults }
    ensures room { D.told → Spends (1 + length (D.state disk.old).reads_as)
        (D.state disk.old) (D.state disk.new) }
    ensures line { JoinsOver (over D.Disk K.Link) disk.old disk.new line.old line.new }
    ensures step { D.told → IsSmall 0 0 (D.state disk.old).reads_as
        → length (pieces 0 (D.state disk.old).reads_as) + 1 < 2 ^ 64
        → TookHaves D.told K.told (first_line (K.state line.old.link))
        (mirrored (D.state disk.new) (line_at K.state line.new))
        (joining (D.state disk.old).reads_as) }
    ensures hung_up { IsHungUp None line.new.lost (K.hung_up line.old.link)
        (K.hung_up line.new.link) }
{
    send_file(disk, line);
    line.sync();
}

// Sends the file in Writes of 4,096 bytes, the last shorter. Where the line is lost it is read on, so that it is known.
fn send_file<D: Disk, K: Link>(disk: &mut D, line: &mut Line<K>)
    requires here { line.old.lost ≡ None }
    requires first { line.old.number ≡ 0 }
    ensures looks { D.told → Looks (D.state disk.old) (D.state disk.new) }
    ensures faults { (D.state disk.old).faults ≤ (D.state disk.new).faults }
    ensures room { D.told → Spends (1 + length (D.state disk.old).reads_as)
        (D.state disk.old) (D.state disk.new) }
    ensures ear { line.new.ear ≡ line.old.ear }
    ensures hung_up { IsHungUp line.old.lost line.new.lost (K.hung_up line.old.link)
        (K.hung_up line.new.link) }
    ensures sends { D.told → IsSmall 0 0 (D.state disk.old).reads_as → SendsFile K.told
        (D.state disk.old) (D.state disk.new) (K.state line.old.link) (line_at K.state line.new) }
{
    let Ok(length) = disk.length() else {
        line.end();
        return;
    };
    let mut piece = [0; MOST_WRITTEN];
    let mut at = 0;
    while at < length {
        let count = (length - at).min(MOST_WRITTEN as u64) as usize;
        if disk.read(at, &mut piece[..count]).is_err() {
            line.end();
            return;
        }
        line.send_write(at, &piece[..count]);
        at += count as u64;
        if line.lost.is_some() {
            read_on(disk, at, length);
            return;
        }
    }
}

// Reads the file from that place on.
fn read_on<D: Disk>(disk: &mut D, from: u64, end: u64)
    requires within { from ≤ end }
    requires size { D.told → end ≡ length (D.state disk.old).reads_as }
    ensures looks { D.told → Looks (D.state disk.old) (D.state disk.new) }
    ensures faults { (D.state disk.old).faults ≤ (D.state disk.new).faults }
    ensures room { Spends (end - from) (D.state disk.old) (D.state disk.new) }
{
    let mut piece = [0; MOST_WRITTEN];
    let mut at = from;
    while at < end {
        let count = (end - at).min(MOST_WRITTEN as u64) as usize;
        if disk.read(at, &mut piece[..count]).is_err() {
            return;
        }
        at += count as u64;
    }
}
