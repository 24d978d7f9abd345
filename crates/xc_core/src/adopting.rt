//! How a controller starts on registers that another one has written.
ghost use Rattle.std.specs.Prelude.{◌≡◌, true};
ghost use Rattle.dxc_disk.specs.Disks.{IsSound, Spends};
ghost use Rattle.fabric_core.specs.State.{IsSize};
ghost use Rattle.paull_matrix.specs.Colourings.{Colouring};
ghost use Rattle.xc_recovery.specs.Stages.{IsLastWork};
ghost use Rattle.xc_core.specs.Openings.{CountsFor, Fails, IsHanded, IsStopFault, KeepsPassing, LeavesOpened};
ghost use Rattle.xc_core.specs.Adoptions.{HasAdopted, IfOpen, IfState, IfStrange, IsDiskOpen, IsStrangeTo, LeftBy, SwitchesAre};

use crate::fault::OpenFault;
use crate::opening::Core;
use crate::provisioner::{Provisioner, release};
use crate::recovery::stage_on;
use crate::start::{begun, house, read_journal};
use crate::state::State;
use dxc_disk::Disk;
use fabric_core::MOST_SWITCHES;
use fabric_words::{Fabric, MoverSeat};
use paull_matrix::Matrix;
use roll_plan::Work;
use shelf_file::Shelf;
use std::alloc::Global;
use xc_recovery::{Stage, switches_left};

/// What came of a start on registers that another controller has written.
#[derive(Drop)]
pub enum Adopted<D: Disk> {
    /// The Provisioner is home, halted: a restart is due, and goes on warm.
    State(State<D>),
    /// The registers are at no stage of the last record's work, or there are no numbers for the switches that it has left. Disk and seat come
    /// back.
    Strange(D, MoverSeat),
    /// The journal couldn't be opened or read.
    Open(OpenFault<D>),
}

// How many switches will have been made with the rest of the last record's work, which led to the matrix. None: the registers are at no stage
// of it, or there are no numbers for so many.
fn switches_after(
    matrix: &mut Matrix,
    mover: &mut MoverSeat,
    fabric: &Fabric,
    last: &Work,
) -> Option<u64>
    requires own { mover.old.fabric ≡ fabric.now }
    requires shape { matrix.old.shape ≡ fabric.now.size.shape }
    requires made { (before : Colouring) × IsLastWork before last.now.ops.items matrix.old }
    ensures matrix { matrix.new ≡ matrix.old }
    ensures mover { mover.new ≡ mover.old }
    ensures switches { SwitchesAre fabric.now.size mover.old.mover last.now.ops.items matrix.old
        result }
    ensures sized { IsSize fabric.now.size }
{
    // Its clause tells that the fabric's size is within the limits.
    let _phase = mover.phase();
    let Stage::At(made) = stage_on(matrix, mover, fabric, last) else {
        return None;
    };
    let now = mover.switches();
    if now > MOST_SWITCHES {
        return None;
    }
    let all = now + switches_left(last, made);
    if all > MOST_SWITCHES { None } else { Some(all) }
}

// Marks the Provisioner of a start as halted, with so many switches for its matrix.
fn halt_at<D: Disk>(p: &mut Provisioner<D>, switches: u64)
    ensures { p.new ≡ record p.old { halted = true; spent = switches } }
{
    p.halted = true;
    p.spent = switches;
}

impl Core {
    /// The state that the disk's journal stands for, on registers that another controller has written, all of whose legs go on being carried:
    /// no register is written. It is halted, so that a restart is due, which makes the rest of the last record's work.
    ///
    /// Memory is taken before the journal is opened, but for the Provisioner's place. It takes at most 131,081 of the disk's room.
    pub fn adopt<D: Disk + Drop>(
        alloc: Global,
        shelf: &Shelf,
        disk: D,
        mover: MoverSeat,
        fabric: &Fabric,
    ) -> Adopted<D>
        requires own { mover.fabric ≡ fabric.now }
        requires shape { fabric.now.size.shape ≡ shelf.now.shape }
        ensures state { IfState result (HasAdopted D.Disk shelf.now mover disk) }
        ensures handed { IfState result (IsHanded D.Disk disk) }
        ensures strange { IfStrange result (IsStrangeTo D.Disk shelf.now mover disk) }
        ensures fails { D.told → IfOpen result (Fails D.state (D.state disk) shelf.now.shape) }
        ensures unstopped { IfOpen result (λ e. IsStopFault e → ⊥) }
        // Of whatever disk is left, where memory was wanting too.
        ensures any_moment { D.told
            → LeftBy D.state result (LeavesOpened shelf.now (D.state disk)) }
        // What was acknowledged stays: each image passes a test of header and records that all of them passed.
        ensures passing { D.told → LeftBy D.state result (KeepsPassing shelf.now (D.state disk)) }
        ensures cause { LeftBy D.state result (CountsFor (IsDiskOpen result) (D.state disk)) }
        ensures room { LeftBy D.state result (Spends 131_081 (D.state disk)) }
        ensures sound { IsSound 131_081 (D.state disk) → IsDiskOpen result → ⊥ }
    {
        let mut read = match read_journal(alloc, shelf, disk, mover) {
            Ok(read) => read,
            Err(fault) => return Adopted::Open(fault),
        };
        let found = switches_after(&mut read.p.matrix, &mut read.p.mover, fabric, &read.last);
        let Some(switches) = found else {
            let (disk, mover) = release(read.p);
            return Adopted::Strange(disk, mover);
        };
        halt_at(&mut read.p, switches);
        let housed = match house(alloc, read) {
            Ok(housed) => housed,
            Err(disk) => return Adopted::Open(OpenFault::NoMemory(disk)),
        };
        Adopted::State(begun(housed))
    }
}
