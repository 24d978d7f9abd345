ghost use Rattle.std.specs.Prelude.{◌≡◌, ◌≢◌, ◌<◌, ◌*◌, ◌%◌, List, [], length, ℕ};
ghost use Rattle.dxc_num.specs.Dimensions.{ports};
ghost use Rattle.fabric_core.specs.declared.size.Size.{Size};
ghost use Rattle.fabric_core.specs.declared.worker.Note.{Note};
ghost use Rattle.fabric_core.specs.Working.{CanBegin};
ghost use Rattle.frame_worker.specs.Frames.{IsFrame, after_frame, fed};
ghost use Rattle.frame_worker.specs.Rows.{IsRowWritten, row_from};

use crate::outputs::{IDLE, Lanes, carry_outputs};
use dxc_num::Shape;
use fabric_words::{Fabric, WorkerSeat};

/// Carries one frame: loads OUT of each output of the worker's modules once, and writes the byte of the input that it carries. An output
/// whose OUT word is none, and each output of another worker, gets 0x7F. Both slices have a byte for each port.
pub fn carry_frame(fabric: &Fabric, seat: &mut WorkerSeat, input: &[u8], output: &mut [u8])
    requires own { seat.old.reader.fabric ≡ fabric.now }
    requires rests { CanBegin seat.old.reader.worker }
    requires room { (length input.now ≡ ports fabric.now.size.shape)
        × (length output.old ≡ ports fabric.now.size.shape) }
    ensures fabric { seat.new.reader.fabric ≡ seat.old.reader.fabric }
    ensures carried { (ns : List Note)
        × (seat.new.reader.worker ≡ after_frame ns seat.old.reader.worker)
        × IsFrame fabric.now.size seat.old.reader.worker.number input.now output.new ns }
{
    seat.begin_frame(fabric);
    let (shape, workers, number) = (fabric.shape(), fabric.workers(), seat.number());
    let mut lanes = Lanes::of(shape, 0);
    for output_module in 0..shape.modules() {
        if output_module % workers == number {
            carry_outputs(
                fabric,
                &mut seat.reader,
                output_module,
                lanes,
                input,
                output,
            );
        } else {
            idle_outputs(shape, output_module, output);
        }
        lanes = lanes.next(shape, output_module);
    }
    seat.end_frame(fabric);
}

// The outputs of another worker's module.
fn idle_outputs(shape: Shape, output_module: u16, output: &mut [u8])
    requires place { output_module < shape.modules }
    requires room { length output.old ≡ ports shape }
    ensures { (z : Size) (w : ℕ) (input : List ℕ) → z.shape ≡ shape → output_module % z.workers ≢ w
        → IsRowWritten (fed z w input) (row_from (output_module * shape.slots) shape.slots)
        output.old output.new [] }
{
    let first = output_module * shape.slots();
    for port in first..first + shape.slots() {
        output[port as usize] = IDLE;
    }
}
