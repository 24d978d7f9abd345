//! What a start of the controller reads of its journal.
ghost use Rattle.std.specs.Prelude.{◌≡◌, false, None, IfErr, IfOk, MatchResult};
ghost use Rattle.dxc_disk.specs.Disks.{IsSound, Spends};
ghost use Rattle.xc_core.specs.Openings.{CountsFor, Fails, IsDiskErr, IsStopErr, KeepsPassing, LeavesOpened};
ghost use Rattle.xc_core.specs.Starts.{IsBlank, IsHoused, IsStart, disk_left, read_fault};
ghost use Rattle.xc_core.specs.declared.state.Home.TheVariants.{In};

use crate::fault::OpenFault;
use crate::origin::Origin;
use crate::provisioner::{Driver, Provisioner, release};
use crate::replayed::Replayed;
use crate::state::{Home, State};
use dbchg_reports::Reports;
use dxc_causes::NoMemory;
use dxc_disk::Disk;
use dxc_model::Table;
use fabric_words::MoverSeat;
use journal_core::Journal;
use paull_matrix::Matrix;
use roll_engine::Rolling;
use roll_plan::Work;
use shelf_file::Shelf;
use std::alloc::Global;
use std::snapshot::Snapshot;
use xc_recovery::{ReplayFault, replay};

/// Table and Provisioner as the journal gives them, no reports, the last record's work, and the journal's disk as it was handed out.
#[derive(Drop)]
pub(crate) struct Start<D: Disk> {
    pub handed: Snapshot<D>,
    pub table: Table,
    pub reports: Reports,
    pub p: Provisioner<D>,
    pub last: Work,
}

/// Memory for what a journal is read into, with nothing in it. What lies in one struct is dropped at once where a start fails: each drop takes
/// the proof a second and more.
#[derive(Drop)]
pub(crate) struct Blank {
    pub table: Table,
    pub matrix: Matrix,
    pub reports: Reports,
    pub replayed: Replayed,
}

// NoMemory is the only error.
fn memory_for(alloc: Global, shelf: &Shelf) -> Result<Blank, NoMemory>
    ensures { IfOk result (IsBlank shelf.now.shape) }
{
    let shape = shelf.shape();
    let table = Table::new(alloc, shape, shelf.equipped())?;
    let matrix = Matrix::new(alloc, shape)?;
    let reports = Reports::new(alloc)?;
    let replayed = Replayed::new(alloc, shape, shelf.equipped())?;
    Ok(Blank {
        table,
        matrix,
        reports,
        replayed,
    })
}

/// With the seat of the one who writes the registers.
#[derive(Drop)]
pub(crate) struct Seated {
    pub blank: Blank,
    pub mover: MoverSeat,
}

// What a journal was read into, with the journal.
fn start_of<D: Disk>(
    handed: Snapshot<D>,
    seated: Seated,
    journal: Journal<D>,
    last: Work,
) -> Start<D>
    ensures { result ≡ record {
      handed = handed;
      table = seated.blank.table;
      reports = seated.blank.reports;
      p = record {
        matrix = seated.blank.matrix;
        journal = journal;
        mover = seated.mover;
        doubt = None;
        changes = 0;
        halted = false;
        spent = 0;
        replayed = seated.blank.replayed;
      };
      last = last;
    } }
{
    let Seated { blank, mover } = seated;
    let Blank {
        table,
        matrix,
        reports,
        replayed,
    } = blank;
    let p = Provisioner {
        matrix,
        journal,
        mover,
        doubt: None,
        changes: 0,
        halted: false,
        spent: 0,
        replayed,
    };
    Start {
        handed,
        table,
        reports,
        p,
        last,
    }
}

// Why it couldn't be read.
fn failed<D: Disk + Drop>(fault: ReplayFault, journal: Journal<D>) -> OpenFault<D>
    ensures { result ≡ read_fault fault journal.0 }
{
    match fault {
        ReplayFault::BadRecord(i) => OpenFault::BadRecord(i, journal.close()),
        ReplayFault::Disk => OpenFault::Disk(journal.close()),
    }
}

/// Opens the journal and reads it. In a new file one of the shelf's equipped modules is made.
///
/// Memory is taken before the journal is opened. It takes at most 131,081 of the disk's room.
pub(crate) fn read_journal<D: Disk + Drop>(
    alloc: Global,
    shelf: &Shelf,
    disk: D,
    mover: MoverSeat,
) -> Result<Start<D>, OpenFault<D>>
    ensures ok { IfOk result (IsStart D.told D.state shelf.now (D.state disk) mover) }
    ensures fails { D.told → IfErr result (Fails D.state (D.state disk) shelf.now.shape) }
    ensures any_moment { D.told
        → LeavesOpened shelf.now (D.state disk) (D.state (disk_left result)) }
    ensures passing { D.told → KeepsPassing shelf.now (D.state disk) (D.state (disk_left result)) }
    ensures cause { CountsFor (IsDiskErr result) (D.state disk) (D.state (disk_left result)) }
    ensures room { Spends 131_081 (D.state disk) (D.state (disk_left result)) }
    ensures sound { IsSound 131_081 (D.state disk) → IsDiskErr result → ⊥ }
    ensures unstopped { IsStopErr result → ⊥ }
{
    let Ok(blank) = memory_for(alloc, shelf) else {
        return Err(OpenFault::NoMemory(disk));
    };
    let mut seated = Seated { blank, mover };
    let shape = shelf.shape();
    let handed = Snapshot::of(&disk);
    let mut journal = match Journal::open(disk, shape, shelf.equipped()) {
        Ok(journal) => journal,
        Err(fault) => return Err(OpenFault::Journal(fault)),
    };
    let last = match replay(
        &mut journal,
        &mut seated.blank.matrix,
        &mut seated.blank.table,
    ) {
        Ok(last) => last,
        Err(fault) => return Err(failed(fault, journal)),
    };
    Ok(start_of(handed, seated, journal, last))
}

/// What is beside the Provisioner.
#[derive(Drop)]
pub(crate) struct Beside<D: Disk> {
    pub handed: Snapshot<D>,
    pub table: Table,
    pub reports: Reports,
    pub last: Work,
}

/// What was read, with its Provisioner in the place that it has from here on.
#[derive(Drop)]
pub(crate) struct Housed<D: Disk> {
    pub beside: Beside<D>,
    pub driver: Box<Driver<D>>,
}

/// Where memory is wanting the disk comes back.
pub(crate) fn house<D: Disk + Drop>(alloc: Global, read: Start<D>) -> Result<Housed<D>, D>
    ensures { MatchResult result (IsHoused read) (λ d. d ≡ read.p.journal.0) }
{
    let Start {
        handed,
        table,
        reports,
        p,
        last,
    } = read;
    let beside = Beside {
        handed,
        table,
        reports,
        last,
    };
    let rolling = Rolling::cold();
    match Box::new(alloc, Driver { p, rolling }) {
        Ok(driver) => Ok(Housed { beside, driver }),
        Err(refused) => Err(disk_in(refused.value)),
    }
}

/// The disk of what was read, where a controller doesn't start on it.
pub(crate) fn unhoused<D: Disk + Drop>(housed: Housed<D>) -> D
    ensures { result ≡ housed.driver.value.p.journal.0 }
{
    let Housed { beside: _, driver } = housed;
    disk_in(Box::into_inner(driver))
}

// The disk of its journal.
fn disk_in<D: Disk>(driver: Driver<D>) -> D
    ensures { result ≡ driver.p.journal.0 }
{
    let Driver { p, rolling: _ } = driver;
    let (disk, _) = release(p);
    disk
}

/// The state that begins with it, which keeps it as its origin.
pub(crate) fn begun<D: Disk>(housed: Housed<D>) -> State<D>
    ensures state { result ≡ record {
      table = housed.beside.table;
      reports = housed.beside.reports;
      home = In housed.driver;
      origin = result.origin;
    } }
    ensures disk { result.origin.disk.value ≡ housed.beside.handed.value }
    ensures table { result.origin.table.value ≡ housed.beside.table }
    ensures provisioner { result.origin.provisioner.value ≡ housed.driver.value.p }
    ensures last { result.origin.last.value ≡ housed.beside.last }
{
    let Housed { beside, driver } = housed;
    let Beside {
        handed,
        table,
        reports,
        last,
    } = beside;
    let origin = Origin::of(handed, &table, &driver.p, &last);
    State {
        table,
        reports,
        home: Home::In(driver),
        origin,
    }
}
