//! The shelf of a row and a new fabric of its shape.
ghost use Rattle.std.specs.Prelude.{◌≡◌, ◌<◌, ◌≤◌, IfOk};
ghost use Rattle.std.specs.Arc.{arc_value};
ghost use Rattle.fabric_core.specs.State.{new_mover};
ghost use Rattle.fabric_words.specs.New.{AreNew};

use anyhow::{Context, Result, bail, ensure};
use fabric_words::{Fabric, MoverSeat, WorkerSeat};
use shelf_file::{Shelf, shelf_of};
use std::alloc::Global;
use std::sync::Arc;
use worked_common::{Part, shape_of, shelf_text, small};

/// What a controller stands on: its shelf, and the registers.
#[derive(Drop)]
pub struct Ground {
    pub shelf: Arc<Shelf>,
    pub fabric: Arc<Fabric>,
}

impl Ground {
    /// Another hold on both.
    pub fn try_clone(&self) -> Result<Ground>
        ensures { IfOk result (λ g. ((arc_value g.shelf) ≡ (arc_value self.now.shelf))
            × ((arc_value g.fabric) ≡ (arc_value self.now.fabric))) }
    {
        let shelf = Arc::try_clone(&self.shelf)?;
        let fabric = Arc::try_clone(&self.fabric)?;
        Ok(Ground { shelf, fabric })
    }
}

/// A new ground with the seats at its registers.
#[derive(Drop)]
pub struct Laid {
    pub ground: Ground,
    pub mover: MoverSeat,
    pub seats: Vec<WorkerSeat>,
}

/// The shelf that the row says, and a fabric of its shape for the row's workers.
pub fn lay(alloc: Global, row: Part<'_, '_>) -> Result<Laid>
    ensures shape { IfOk result
        (λ l. (arc_value l.ground.fabric).size.shape ≡ (arc_value l.ground.shelf).shape) }
    ensures mover { IfOk result (λ l. l.mover ≡ record {
      fabric = arc_value l.ground.fabric;
      mover = new_mover (arc_value l.ground.fabric).size;
    }) }
    ensures seats { IfOk result (λ l. AreNew (arc_value l.ground.fabric) 0 l.seats.items) }
{
    let workers = small(row.number_at("workers")?.unwrap_or(1))?;
    ensure!(1 <= workers && workers <= 8, "no such number of workers");
    lay_on(alloc, shelf_said(alloc, row)?, workers)
}

fn lay_on(alloc: Global, shelf: Arc<Shelf>, workers: u16) -> Result<Laid>
    requires { (0 < workers) × (workers ≤ 8) }
    ensures shape { IfOk result
        (λ l. (arc_value l.ground.fabric).size.shape ≡ (arc_value l.ground.shelf).shape) }
    ensures mover { IfOk result (λ l. l.mover ≡ record {
      fabric = arc_value l.ground.fabric;
      mover = new_mover (arc_value l.ground.fabric).size;
    }) }
    ensures seats { IfOk result (λ l. AreNew (arc_value l.ground.fabric) 0 l.seats.items) }
{
    let Ok((fabric, mover, seats)) = Fabric::new(alloc, shelf.shape(), workers) else {
        bail!("no memory");
    };
    let fabric = Arc::new(alloc, fabric)?;
    let ground = Ground { shelf, fabric };
    Ok(Laid {
        ground,
        mover,
        seats,
    })
}

// The shelf of the shape that the row says, with all modules equipped.
fn shelf_said(alloc: Global, row: Part<'_, '_>) -> Result<Arc<Shelf>> {
    let (modules, slots) = shape_of(row.last("shelf").context("no shape")?)?;
    let text = shelf_text(alloc, modules, slots)?;
    let shelf = shelf_of(alloc, text.as_bytes()).ok().context("no shelf")?;
    Ok(Arc::new(alloc, shelf)?)
}
