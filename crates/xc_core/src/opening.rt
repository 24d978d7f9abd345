//! How a controller starts.
ghost use Rattle.std.specs.Prelude.{◌≡◌, ℕ, length, replicate, IfErr, IfOk, Ok, Err};
ghost use Rattle.dxc_causes.specs.Stops.{RoseOnlyFor};
ghost use Rattle.dxc_disk.specs.Disks.{IsSound, Spends};
ghost use Rattle.fabric_core.specs.State.{new_mover};
ghost use Rattle.paull_matrix.specs.Colourings.{IsProperColouring};
ghost use Rattle.roll_plan.specs.Works.{switches_in};
ghost use Rattle.roll_engine.specs.Stages.{IsAtRestOn};
ghost use Rattle.roll_engine.specs.Cold.{joins_of};
ghost use Rattle.dxc_outside.specs.Stops.{the_stop};
ghost use Rattle.dxc_outside.specs.declared.gate.GatePlace.TheVariants.{Register};
ghost use Rattle.xc_core.specs.Askings.{OpenAsked};
ghost use Rattle.xc_core.specs.Openings.{CountsFor, Fails, IsDiskErr, IsHanded, IsStopErr, KeepsPassing, Left, LeavesOpened, Opened};

use crate::fault::OpenFault;
use crate::provisioner::Provisioner;
use crate::start::{begun, house, read_journal, unhoused};
use crate::state::State;
use dxc_disk::Disk;
use dxc_outside::{Gate, Stopped};
use fabric_words::{Fabric, MoverSeat};
use roll_engine::cold::advance_cold;
use roll_engine::{Halt, Rolling};
use shelf_file::Shelf;
use std::alloc::Global;

/// The controller's core.
pub struct Core;

impl Core {
    /// The state that the disk's journal stands for, on a new fabric of the shelf's shape, with each leg joined at its middle. In a new
    /// file a journal of the shelf's equipped modules is made.
    ///
    /// Memory is taken before the journal is opened, but for the Provisioner's place, which is taken when the records are read. It takes at most 131,081 of the disk's room.
    pub fn open<D: Disk + Drop, G: Gate>(
        alloc: Global,
        shelf: &Shelf,
        disk: D,
        mover: MoverSeat,
        fabric: &Fabric,
        gate: &mut G,
    ) -> Result<State<D>, OpenFault<D>>
        requires new { mover ≡ record { fabric = fabric.now; mover = new_mover fabric.now.size } }
        requires shape { fabric.now.size.shape ≡ shelf.now.shape }
        ensures ok { IfOk result (Opened D.Disk shelf.now fabric.now disk) }
        ensures handed { IfOk result (IsHanded D.Disk disk) }
        ensures fails { D.told → IfErr result (Fails D.state (D.state disk) shelf.now.shape) }
        // Of whatever disk is left, where the gate stopped or memory was wanting too.
        ensures any_moment { D.told → Left D.state result (LeavesOpened shelf.now (D.state disk)) }
        // What was acknowledged stays: each image passes a test of header and records that all of them passed.
        ensures passing { D.told → Left D.state result (KeepsPassing shelf.now (D.state disk)) }
        ensures cause { Left D.state result (CountsFor (IsDiskErr result) (D.state disk)) }
        ensures room { Left D.state result (Spends 131_081 (D.state disk)) }
        ensures sound { IsSound 131_081 (D.state disk) → IsDiskErr result → ⊥ }
        ensures stopped { RoseOnlyFor (G.stops gate.old) (G.stops gate.new) (IsStopErr result) }
        ensures asked { OpenAsked D.state (G.asked gate.old gate.new) result }
    {
        let read = match read_journal(alloc, shelf, disk, mover) {
            Ok(read) => read,
            Err(fault) => return Err(fault),
        };
        let mut housed = match house(alloc, read) {
            Ok(housed) => housed,
            Err(disk) => return Err(OpenFault::NoMemory(disk)),
        };
        match join_all(&mut housed.driver.p, fabric, gate) {
            Ok(()) => {}
            Err(Stopped) => return Err(OpenFault::Stopped(unhoused(housed))),
        }
        Ok(begun(housed))
    }
}

// Joins all legs of the matrix on a new fabric, and notes how many switches that took.
fn join_all<D: Disk, G: Gate>(
    p: &mut Provisioner<D>,
    fabric: &Fabric,
    gate: &mut G,
) -> Result<(), Stopped>
    requires own { p.old.mover.fabric ≡ fabric.now }
    requires new { p.old.mover.mover ≡ new_mover fabric.now.size }
    requires shape { p.old.matrix.shape ≡ fabric.now.size.shape }
    requires proper { IsProperColouring p.old.matrix }
    ensures others { p.new ≡ record p.old { mover = p.new.mover; spent = p.new.spent } }
    ensures joined { result ≡ Ok tt → (p.new.mover.fabric ≡ fabric.now)
        × IsAtRestOn fabric.now.size p.old.matrix p.new.mover.mover
        × (length p.new.mover.mover.log ≡ switches_in (joins_of p.old.matrix)) }
    ensures spent { p.new.spent ≡ length p.new.mover.mover.log }
    ensures stopped { RoseOnlyFor (G.stops gate.old) (G.stops gate.new) (result ≡ Err the_stop) }
    ensures asked { result ≡ Ok tt
        → G.asked gate.old gate.new (replicate (length (joins_of p.old.matrix)) Register) }
    ensures asked_till { result ≡ Err the_stop
        → (n : ℕ) × G.asked gate.old gate.new (replicate n Register) }
{
    // Its clause tells that the fabric's size is within the limits.
    let _phase = p.mover.phase();
    let mut rolling = Rolling::cold();
    let advance = advance_cold(&p.matrix, fabric, &mut p.mover, &mut rolling, gate);
    p.spent = p.mover.switches();
    // Joins look at no frame.
    match advance {
        Ok(()) => Ok(()),
        Err(halt) => match halt {
            Halt::Stopped => Err(Stopped),
            Halt::InFrame(_) => unreachable!(),
        },
    }
}
