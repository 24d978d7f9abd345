//! The steps of a worker one by one.
ghost use Rattle.std.specs.Prelude.{◌≡◌, ◌↔◌, IsTrue, IfSome};
ghost use Rattle.fabric_core.specs.Working.{CanBegin, HasOutput, IsOwn, Runs};
ghost use Rattle.dxc_num.specs.Dimensions.{IsPort};

use dxc_num::Port;
use fabric_words::{Fabric, WorkerSeat};

// Whether the output is one of the worker's.
fn is_own(fabric: &Fabric, seat: &WorkerSeat, output: Port) -> bool
    ensures { IsTrue result ↔ (IsPort fabric.now.size.shape output
        × IsOwn fabric.now.size seat.now.reader.worker.number output) }
{
    let shape = fabric.shape();
    output.0 < shape.ports() && shape.module_of(output) % fabric.workers() == seat.number()
}

/// Begins a frame and loads OUT of an output. None where the output isn't one of the worker's, or its word is none.
pub fn hold(fabric: &Fabric, seat: &mut WorkerSeat, output: Port) -> Option<u64>
    requires own { seat.old.reader.fabric ≡ fabric.now }
    requires rests { CanBegin seat.old.reader.worker }
    ensures fabric { seat.new.reader.fabric ≡ seat.old.reader.fabric }
    ensures held { IfSome result
        (λ word. Runs seat.new.reader.worker × HasOutput seat.new.reader.worker.hold) }
{
    if !is_own(fabric, seat, output) {
        return None;
    }
    seat.begin_frame(fabric);
    let word = seat.load_out(fabric, output);
    if word == 0 {
        return None;
    }
    Some(word)
}

/// Loads the MID word and the IN word that the OUT word names which was loaded before, and ends the frame.
pub fn follow(fabric: &Fabric, seat: &mut WorkerSeat, held: Option<u64>) -> Option<(u64, u64)>
    requires own { seat.old.reader.fabric ≡ fabric.now }
    requires held { IfSome held
        (λ word. Runs seat.old.reader.worker × HasOutput seat.old.reader.worker.hold) }
{
    let Some(_word) = held else {
        return None;
    };
    let module = seat.load_mid(fabric);
    let slot = seat.load_in(fabric);
    seat.end_frame(fabric);
    Some((module, slot))
}
