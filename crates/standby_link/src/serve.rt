ghost use Rattle.std.specs.Prelude.{◌≡◌, ◌≢◌, ◌⊎◌, ◌↔◌, ◌+◌, ◌-◌, ◌^◌, ◌≤◌, ℕ, min, false, [], length, take, IfOk, IfErr, IsTrue};
ghost use Rattle.dxc_causes.specs.Causes.{HasCause, Rose, Counted};
ghost use Rattle.dxc_outside.specs.Links.{IsSoundLink};
ghost use Rattle.standby_link.specs.Readings.{size};
ghost use Rattle.standby_link.specs.Serves.{IsOfItem, IsOfTurn, IsPrompt, IsUnfinished, OnlyWrites, SendsHave, ServesAny, ServesEmpty, TakesTurn, both_at, turn_at};

use crate::end::StandbyEnd;
use crate::in_hand::{InHand, judge, size_of_item};
use crate::made::Made;
use crate::spell::{HEAD, ITEM};
use byteorder::{BigEndian, ByteOrder};
use dxc_disk::Disk;
use dxc_outside::{Got, Link, MOST_READS, Sent, write_all};

/// Makes on the disk, which is to be empty, what a primary sends over the link, and answers each Sync with a Have. It ends
/// as the link ends, by a fault, by bytes that are no item, or after 2^32 reads. It takes no memory.
pub fn serve_standby<K: Link, D: Disk>(link: &mut K, disk: &mut D) -> StandbyEnd
    ensures served { ServesAny K.told D.told (both_at (K.state link.old) (D.state disk.old))
        (both_at (K.state link.new) (D.state disk.new)) result }
    ensures prompt { IsPrompt K.begun K.told (K.state link.old) (K.state link.new) }
    ensures not_empty { D.told → (D.state disk.old).reads_as ≢ []
        → (result ≡ StandbyEnd.NotEmpty) ⊎ (result ≡ StandbyEnd.DiskFault) }
    ensures empty { D.told → result ≡ StandbyEnd.NotEmpty → (D.state disk.old).reads_as ≢ [] }
    ensures end { (K.state link.old).ended ≡ false
        → ((result ≡ StandbyEnd.End) ↔ IsTrue (K.state link.new).ended) }
    ensures read_fault { result ≡ StandbyEnd.ReadFault
        → Rose (K.state link.old).read_faults (K.state link.new).read_faults }
    ensures no_read_fault { result ≢ StandbyEnd.ReadFault
        → (K.state link.new).read_faults ≡ (K.state link.old).read_faults }
    ensures write_fault { result ≡ StandbyEnd.WriteFault
        → Rose (K.state link.old).write_faults (K.state link.new).write_faults }
    ensures no_write_fault { result ≢ StandbyEnd.WriteFault
        → (K.state link.new).write_faults ≡ (K.state link.old).write_faults }
    ensures disk_fault { result ≡ StandbyEnd.DiskFault
        → Rose (D.state disk.old).faults (D.state disk.new).faults }
    ensures few { (K.state link.new).reads ≤ (K.state link.old).reads + 2 ^ 32 }
    ensures spent { result ≡ StandbyEnd.Spent
        → Counted (K.state link.old).reads (K.state link.new).reads (2 ^ 32) }
    ensures sound_link { IsSoundLink (K.state link.old)
        → (result ≢ StandbyEnd.ReadFault) × (result ≢ StandbyEnd.WriteFault) }
    ensures hung_up { K.hung_up link.new ≡ K.hung_up link.old }
{
    match disk.length() {
        Ok(0) => serve(link, disk),
        Ok(_) => StandbyEnd::NotEmpty,
        Err(_) => StandbyEnd::DiskFault,
    }
}

fn serve<K: Link, D: Disk>(link: &mut K, disk: &mut D) -> StandbyEnd
    requires { D.told → (D.state disk.old).reads_as ≡ [] }
    ensures served { ServesEmpty K.told D.told (both_at (K.state link.old) (D.state disk.old))
        (both_at (K.state link.new) (D.state disk.new)) result }
    ensures prompt { IsPrompt K.begun K.told (K.state link.old) (K.state link.new) }
    ensures end { (result ≡ StandbyEnd.End) ↔ IsTrue (K.state link.new).ended }
    ensures read_fault { HasCause (K.state link.old).read_faults (K.state link.new).read_faults
        (result ≡ StandbyEnd.ReadFault) }
    ensures no_read_fault { result ≢ StandbyEnd.ReadFault
        → (K.state link.new).read_faults ≡ (K.state link.old).read_faults }
    ensures write_fault { HasCause (K.state link.old).write_faults (K.state link.new).write_faults
        (result ≡ StandbyEnd.WriteFault) }
    ensures no_write_fault { result ≢ StandbyEnd.WriteFault
        → (K.state link.new).write_faults ≡ (K.state link.old).write_faults }
    ensures disk_fault { HasCause (D.state disk.old).faults (D.state disk.new).faults
        (result ≡ StandbyEnd.DiskFault) }
    ensures few { (K.state link.new).reads ≤ (K.state link.old).reads + 2 ^ 32 }
    ensures spent { result ≡ StandbyEnd.Spent
        → Counted (K.state link.old).reads (K.state link.new).reads (2 ^ 32) }
    ensures not_empty { result ≡ StandbyEnd.NotEmpty → ⊥ }
    ensures sound { IsSoundLink (K.state link.old)
        → (result ≢ StandbyEnd.ReadFault) × (result ≢ StandbyEnd.WriteFault) }
    ensures hung_up { K.hung_up link.new ≡ K.hung_up link.old }
{
    let mut inbox = [0; ITEM];
    let mut held = 0;
    let mut made = Made {
        length: 0,
        last: 0,
        synced: 0,
    };
    for _ in 0..MOST_READS {
        match turn(&mut inbox, held, &mut made, link, disk) {
            Ok(left) => held = left,
            Err(end) => return end,
        }
    }
    StandbyEnd::Spent
}

/// One read after the bytes in hand, and what is to be done for what it brought. Answers how many bytes are in hand then.
fn turn<K: Link, D: Disk>(
    inbox: &mut [u8; ITEM],
    held: usize,
    made: &mut Made,
    link: &mut K,
    disk: &mut D,
) -> Result<usize, StandbyEnd>
    requires unfinished { IsUnfinished inbox.old held }
    requires sized { D.told
        → made.old.length ≡ min (length (D.state disk.old).reads_as) (2 ^ 64 - 1) }
    ensures goes { TakesTurn K.told D.told
        (turn_at (K.state link.old) (D.state disk.old) made.old (take held inbox.old))
        (turn_at (K.state link.new) (D.state disk.new) made.new inbox.new) result }
    ensures unfinished { IfOk result (λ left. IsUnfinished inbox.new left) }
    ensures ends { IfErr result IsOfTurn }
    ensures end { (result ≡ Err StandbyEnd.End) ↔ IsTrue (K.state link.new).ended }
    ensures begun { K.begun (K.state link.old) }
    ensures reads { Counted (K.state link.old).reads (K.state link.new).reads 1 }
    ensures read_fault { HasCause (K.state link.old).read_faults (K.state link.new).read_faults
        (result ≡ Err StandbyEnd.ReadFault) }
    ensures no_read_fault { result ≢ Err StandbyEnd.ReadFault
        → (K.state link.new).read_faults ≡ (K.state link.old).read_faults }
    ensures write_fault { HasCause (K.state link.old).write_faults (K.state link.new).write_faults
        (result ≡ Err StandbyEnd.WriteFault) }
    ensures no_write_fault { result ≢ Err StandbyEnd.WriteFault
        → (K.state link.new).write_faults ≡ (K.state link.old).write_faults }
    ensures disk_fault { HasCause (D.state disk.old).faults (D.state disk.new).faults
        (result ≡ Err StandbyEnd.DiskFault) }
    ensures sound { IsSoundLink (K.state link.old) → IsSoundLink (K.state link.new)
        × (result ≢ Err StandbyEnd.ReadFault) × (result ≢ Err StandbyEnd.WriteFault) }
    ensures hung_up { K.hung_up link.new ≡ K.hung_up link.old }
{
    let wanted = size_of_item(&inbox[..held]);
    match link.read(&mut inbox[held..wanted]) {
        Got::Bytes(count) => take_in(&inbox[..held + count], made, link, disk),
        Got::Quiet => Ok(held),
        Got::End => Err(StandbyEnd::End),
        Got::Failed => Err(StandbyEnd::ReadFault),
    }
}

/// Makes the item in hand where it is whole. Answers how many bytes are in hand then.
fn take_in<K: Link, D: Disk>(
    held: &[u8],
    made: &mut Made,
    link: &mut K,
    disk: &mut D,
) -> Result<usize, StandbyEnd>
    requires within { length held.now ≤ size held.now }
    requires sized { D.told
        → made.old.length ≡ min (length (D.state disk.old).reads_as) (2 ^ 64 - 1) }
    ensures goes { TakesTurn K.told D.told
        (turn_at (K.state link.old) (D.state disk.old) made.old held.now)
        (turn_at (K.state link.new) (D.state disk.new) made.new held.now) result }
    ensures unfinished { IfOk result (λ left. IsUnfinished held.now left) }
    ensures ends { IfErr result IsOfItem }
    ensures link { OnlyWrites (K.state link.old) (K.state link.new) }
    ensures write_fault { HasCause (K.state link.old).write_faults (K.state link.new).write_faults
        (result ≡ Err StandbyEnd.WriteFault) }
    ensures no_write_fault { result ≢ Err StandbyEnd.WriteFault
        → (K.state link.new).write_faults ≡ (K.state link.old).write_faults }
    ensures disk_fault { HasCause (D.state disk.old).faults (D.state disk.new).faults
        (result ≡ Err StandbyEnd.DiskFault) }
    ensures sound { IsSoundLink (K.state link.old)
        → IsSoundLink (K.state link.new) × (result ≢ Err StandbyEnd.WriteFault) }
    ensures hung_up { K.hung_up link.new ≡ K.hung_up link.old }
{
    match judge(held) {
        InHand::Unfinished => return Ok(held.len()),
        InHand::Bad => return Err(StandbyEnd::BadMessage),
        InHand::Write { number, place } => made.write(disk, number, place, &held[HEAD..])?,
        InHand::Sync { number } => {
            made.sync(disk, number)?;
            send_have(link, made.synced)?;
        }
    }
    Ok(0)
}

fn send_have<K: Link>(link: &mut K, number: u64) -> Result<(), StandbyEnd>
    ensures sends { SendsHave K.told (K.state link.old) (K.state link.new) number result }
    ensures link { OnlyWrites (K.state link.old) (K.state link.new) }
    ensures ends { IfErr result IsOfItem }
    ensures cause { HasCause (K.state link.old).write_faults (K.state link.new).write_faults
        (result ≡ Err StandbyEnd.WriteFault) }
    ensures no_fault { result ≢ Err StandbyEnd.WriteFault
        → (K.state link.new).write_faults ≡ (K.state link.old).write_faults }
    ensures sound { IsSoundLink (K.state link.old)
        → IsSoundLink (K.state link.new) × (result ≢ Err StandbyEnd.WriteFault) }
    ensures hung_up { K.hung_up link.new ≡ K.hung_up link.old }
{
    let mut message = [3; 9];
    BigEndian::write_u64(&mut message[1..], number);
    match write_all(link, &message) {
        Sent::Whole => Ok(()),
        Sent::Cut => Err(StandbyEnd::WriteFault),
    }
}
