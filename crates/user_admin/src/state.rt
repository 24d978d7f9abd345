//! The state of the users: who they are, and their journal.
ghost use Rattle.std.specs.Prelude.{◌≡◌, ◌≢◌, ◌≤◌, ◌<◌, ℕ, List, [], None, false, length, option_map, slice_get, MatchResult, Some, IfErr, IfOk, IfSome, IsErr, Ok};
ghost use Rattle.std.specs.FinMap.{entries};
ghost use Rattle.dxc_causes.specs.Causes.{HasCause};
ghost use Rattle.dxc_causes.specs.Stops.{RoseOnlyFor};
ghost use Rattle.dxc_disk.specs.Disks.{IsSound, LeavesOnly, Spends, files};
ghost use Rattle.journal_core.specs.Books.{IsReady};
ghost use Rattle.user_admin.specs.declared.op.UserEntry.{UserEntry as Entry};
ghost use Rattle.user_admin.specs.Histories.{Opening};
ghost use Rattle.user_admin.specs.Openings.{Begins, Fails, IsDiskErr, IsOpening, LeavesOpened, asked_at, disk_left, read_fault};
ghost use Rattle.tl1_users.specs.Commands.{NamesUid};
ghost use Rattle.user_admin.specs.Users.{shelf_users};
ghost use Rattle.tl1_users.specs.declared.op.UserOp.{UserOp as Op};
ghost use Rattle.user_admin.specs.Operations.{MayBe};
ghost use Rattle.user_admin.specs.States.{Answers, IsNoted, MayNote, StandsFor, asked_after, opening_of};
ghost use Rattle.user_admin.specs.Verdicts.{Grants, IsChanging, login, refusal, rows_in};

use crate::fault::UserOpenFault;
use crate::fold::{FoldFault, fold};
use crate::keep::keep;
use crate::op::{User, UserChange, UserDone, UserRows};
use crate::secret::copy_as;
use crate::table::UserTable;
use dxc_causes::NoMemory;
use dxc_disk::{Disk, DiskFault};
use dxc_model::{Cause, Class, Uid};
use dxc_outside::{Gate, GatePlace, Stopped};
use journal_core::Journal;
use shelf_file::Shelf;
use std::alloc::Global;
use std::snapshot::Snapshot;
use tl1_text::Sid;
use tl1_users::UserOp;

/// The users that the shelf describes, and those that are kept.
#[derive(Drop)]
pub struct Lists {
    pub(crate) described: UserTable,
    pub(crate) users: UserTable,
}

/// Where the users' history begins: the shelf, the journal's disk as it was handed out, and the users and their journal as it was opened. It has no
/// bytes; contracts alone read it.
#[derive(Drop)]
pub struct UserOrigin<D: Disk> {
    pub(crate) shelf: Snapshot<Shelf>,
    pub(crate) disk: Snapshot<D>,
    pub(crate) users: Snapshot<UserTable>,
    pub(crate) journal: Snapshot<Journal<D>>,
}

/// What stands for the history of the users.
#[derive(Drop)]
pub struct UserState<D: Disk> {
    pub(crate) sid: Sid,
    pub(crate) lists: Box<Lists>,
    pub(crate) journal: Journal<D>,
    pub(crate) origin: UserOrigin<D>,
}

pub(crate) fn copy_of(sid: &Sid) -> Sid
    ensures { result ≡ sid.now }
{
    match Sid::of(sid.bytes()) {
        Some(sid) => sid,
        None => unreachable!(),
    }
}

impl<D: Disk> UserOrigin<D> {
    // Where the users begin.
    fn of(
        shelf: &Shelf,
        disk: Snapshot<D>,
        users: &UserTable,
        journal: &Journal<D>,
    ) -> UserOrigin<D>
        ensures shelf { result.shelf.value ≡ shelf.now }
        ensures disk { result.disk ≡ disk }
        ensures users { result.users.value ≡ users.now }
        ensures journal { result.journal.value ≡ journal.now }
    {
        UserOrigin {
            shelf: Snapshot::of(shelf),
            disk,
            users: Snapshot::of(users),
            journal: Snapshot::of(journal),
        }
    }
}

// The users that the shelf describes, as both lists.
fn lists_of(alloc: Global, shelf: &Shelf) -> Result<Box<Lists>, NoMemory>
    ensures described { IfOk result (λ l. l.value.described ≡ shelf_users shelf.now) }
    ensures users { IfOk result (λ l. l.value.users ≡ shelf_users shelf.now) }
{
    let described = UserTable::of(alloc, shelf)?;
    let users = UserTable::of(alloc, shelf)?;
    match Box::new(alloc, Lists { described, users }) {
        Ok(lists) => Ok(lists),
        Err(_) => Err(NoMemory),
    }
}

// Why the records couldn't be taken.
fn unread<D: Disk + Drop>(fault: FoldFault, journal: Journal<D>) -> UserOpenFault<D>
    ensures { result ≡ read_fault fault journal.0 }
{
    match fault {
        FoldFault::BadRecord(i) => UserOpenFault::BadRecord(i, journal.close()),
        FoldFault::Disk => UserOpenFault::Disk(journal.close()),
    }
}

impl<D: Disk + Drop> UserState<D> {
    /// The users that the shelf describes, after the changes that the disk's journal stands for. In a new file a journal of the shelf's shape
    /// and equipped modules is made.
    ///
    /// Memory is taken before the journal is opened. It takes at most 131,081 of the disk's room.
    pub fn open(alloc: Global, shelf: &Shelf, disk: D) -> Result<UserState<D>, UserOpenFault<D>>
        ensures ok { IfOk result (λ s. IsOpening D.told (D.state disk).reads_as shelf.now
            (opening_of D.state s) × Begins D.told D.state s) }
        ensures handed { IfOk result
            (λ s. (opening_of D.state s).readings ≡ files (D.state disk).readings) }
        ensures fails { D.told → IfErr result (Fails D.state (D.state disk) shelf.now) }
        // Of whatever disk is left, where memory was wanting too.
        ensures any_moment { D.told
            → LeavesOpened shelf.now (D.state disk) (D.state (disk_left result)) }
        ensures cause { HasCause (D.state disk).faults (D.state (disk_left result)).faults
            (IsDiskErr result) }
        ensures room { Spends 131_081 (D.state disk) (D.state (disk_left result)) }
        ensures sound { IsSound 131_081 (D.state disk) → IsDiskErr result → ⊥ }
    {
        let Ok(mut lists) = lists_of(alloc, shelf) else {
            return Err(UserOpenFault::NoMemory(disk));
        };
        let sid = copy_of(shelf.sid());
        let handed = Snapshot::of(&disk);
        let mut journal = match Journal::open(disk, shelf.shape(), shelf.equipped()) {
            Ok(journal) => journal,
            Err(fault) => return Err(UserOpenFault::Journal(fault)),
        };
        // Their clauses tell what shelf and journal always keep.
        let _few = shelf.users();
        let _count = journal.count();
        match fold(&mut journal, &mut lists) {
            Ok(()) => {}
            Err(fault) => return Err(unread(fault, journal)),
        }
        let origin = UserOrigin::of(shelf, handed, &lists.users, &journal);
        Ok(UserState {
            sid,
            lists,
            journal,
            origin,
        })
    }
}

impl<D: Disk> UserState<D> {
    /// Makes the change of a changing operation, and keeps it in the journal before. The first cause against it is the users'; then the gate
    /// is asked; then `DiskFault`, only where the disk's count of faults rose.
    ///
    /// Where the journal's area is full or of an earlier version, a checkpoint of the users is written first. It takes at most 4,207,216 of
    /// the disk's room, and no memory.
    pub fn change<G: Gate>(&mut self, op: &UserOp, gate: &mut G) -> Result<UserDone, Stopped>
        requires changing { IsChanging op.now }
        requires named { NamesUid op.now }
        requires stands { (o : Opening) × (h : List Entry) × StandsFor D.told D.state o self.old h }
        ensures changed { (o : Opening) → (h : List Entry) → (place : ℕ)
            → StandsFor D.told D.state o self.old h
            → Answers D.Disk (asked_after o h place op.now) self.new result }
        ensures origin { self.new.origin ≡ self.old.origin }
        // The journal's header names the modules that it named.
        ensures equipped { self.new.journal.1.head.equipped ≡ self.old.journal.1.head.equipped }
        // What the users deny makes no call on the disk, nor does what the gate stops.
        ensures denied_still { asked_at result ≡ [] → self.new.journal ≡ self.old.journal }
        ensures stopped_still { IsErr result → self.new.journal ≡ self.old.journal }
        // A crash at any moment leaves the users as they were, with the change in doubt or not, or with this one.
        ensures any_moment { D.told → (o : Opening) → (h : List Entry)
            → StandsFor D.told D.state o self.old h
            → LeavesOnly (D.state self.old.journal.0) (D.state self.new.journal.0)
            (MayBe o h op.now) }
        ensures stopped { RoseOnlyFor (G.stops gate.old) (G.stops gate.new) (IsErr result) }
        ensures asked { G.asked gate.old gate.new (asked_at result) }
        ensures fault { HasCause (D.state self.old.journal.0).faults
            (D.state self.new.journal.0).faults (result ≡ Ok (UserDone.Denied Cause.DiskFault)) }
        ensures room { Spends 4_207_216 (D.state self.old.journal.0) (D.state self.new.journal.0) }
        // Where no checkpoint is due and no record is in doubt, it is a record's.
        ensures short { IsReady self.old.journal.1 × (self.old.journal.1.to_mend ≡ false)
            → Spends 69 (D.state self.old.journal.0) (D.state self.new.journal.0) }
        ensures sound { IsSound 4_207_216 (D.state self.old.journal.0)
            → result ≢ Ok (UserDone.Denied Cause.DiskFault) }
    {
        let lists = &*self.lists;
        let change = match lists.users.verdict(&self.sid, op) {
            Ok(change) => change,
            Err(cause) => return Ok(UserDone::Denied(cause)),
        };
        gate.pass(GatePlace::Journal)?;
        match self.note(&change) {
            Ok(()) => Ok(UserDone::Done(change)),
            Err(DiskFault) => Ok(UserDone::Denied(Cause::DiskFault)),
        }
    }

    /// Keeps a change that the users grant in the journal, and takes it then. DiskFault is the only error, and only where the disk's count of
    /// faults rose; the users are as before then. It takes no memory, and of the disk's room what `change` takes.
    pub(crate) fn note(&mut self, change: &UserChange) -> Result<(), DiskFault>
        requires may { MayNote D.Disk self.old change.now }
        ensures noted { IsNoted D.Disk self.old change.now self.new result }
        ensures origin { self.new.origin ≡ self.old.origin }
        ensures equipped { self.new.journal.1.head.equipped ≡ self.old.journal.1.head.equipped }
        // A crash at any moment leaves the users as they were, with the change in doubt or not, or with this one.
        ensures any_moment { D.told → (o : Opening) → (h : List Entry) → (op : Op)
            → StandsFor D.told D.state o self.old h
            → Grants self.old.sid op self.old.lists.value.users change.now
            → LeavesOnly (D.state self.old.journal.0) (D.state self.new.journal.0)
            (MayBe o h op) }
        ensures fault { HasCause (D.state self.old.journal.0).faults
            (D.state self.new.journal.0).faults (IsErr result) }
        ensures room { Spends 4_207_216 (D.state self.old.journal.0) (D.state self.new.journal.0) }
        ensures short { IsReady self.old.journal.1 × (self.old.journal.1.to_mend ≡ false)
            → Spends 69 (D.state self.old.journal.0) (D.state self.new.journal.0) }
        ensures sound { IsSound 4_207_216 (D.state self.old.journal.0) → IsErr result → ⊥ }
    {
        let lists = &mut *self.lists;
        match keep(&mut self.journal, &lists.described, &lists.users, change) {
            Ok(()) => {}
            Err(DiskFault) => return Err(DiskFault),
        }
        lists.users.take(change);
        Ok(())
    }

    /// The class of the user of a name, case aside, whose kept digest is that of the salt followed by the PID; None exactly where there is none.
    pub fn login_now(&self, uid: &[u8], pid: &[u8]) -> Option<Class>
        ensures short { length uid.now ≤ 10
            → result ≡ login uid.now pid.now self.now.lists.value.users }
        ensures long { 10 < length uid.now → result ≡ None }
    {
        let uid = Uid::of(uid)?;
        self.lists.users.login_now(uid, pid)
    }

    /// The names of all users with their classes, in order of names, or of one; UnknownUser is the only cause against it.
    pub fn rows(&self, which: &Option<Uid>) -> Result<UserRows, Cause>
        ensures { MatchResult result
            (λ given. (refusal (UserOp.Rows which.now) self.now.lists.value.users ≡ None)
            × (given.items ≡ rows_in self.now.lists.value.users which.now))
            (λ q. refusal (UserOp.Rows which.now) self.now.lists.value.users ≡ Some q) }
    {
        self.lists.users.listing(which)
    }

    /// Gives the disk back as it is.
    pub fn close(self) -> D
        ensures { result ≡ self.journal.0 }
    {
        let UserState {
            sid: _,
            lists: _,
            journal,
            origin: _,
        } = self;
        journal.close()
    }

    /// A user by its place in the order of names in upper case, from 0; None exactly past the last.
    pub fn user(&self, i: usize) -> Option<User>
        ensures { option_map (λ u. (u.uid, u)) result ≡ slice_get
            (entries self.now.lists.value.users) i }
    {
        match self.lists.users.at(i) {
            Some(user) => Some(copy_as(user, user.class)),
            None => None,
        }
    }
}
