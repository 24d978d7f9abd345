//! The outputs of one module: the loop in which the product spends its time.
ghost use Rattle.std.specs.Prelude.{◌≡◌, ◌<◌, ◌+◌, ◌*◌, ◌%◌, List, length};
ghost use Rattle.dxc_num.specs.Dimensions.{ports, module_of};
ghost use Rattle.fabric_core.specs.declared.worker.Hold.TheVariants.{Empty};
ghost use Rattle.fabric_core.specs.declared.worker.Note.{Note};
ghost use Rattle.fabric_core.specs.State.{IsSize};
ghost use Rattle.fabric_core.specs.Working.{Runs, CanLoadOut};
ghost use Rattle.fabric_words.specs.Places.{out_place};
ghost use Rattle.frame_worker.specs.Frames.{Carries, fed, with_notes};
ghost use Rattle.frame_worker.specs.Rows.{lanes_of, IsRowWritten, row_from};

use dxc_num::{Port, Shape};
use fabric_core::cell;
use fabric_words::{Fabric, Reader};

/// The byte of an output that carries nothing.
pub const IDLE: u8 = 0x7F;

/// Where the words of an output module lie, from its first output's OUT word to after its last one's. Its MID word of the middle that an
/// OUT word names is `modules` times that name after `mids`. A port's OUT word is so many after `outs`.
///
/// It is made by the caller of the loop over outputs, so that the loop counts by places alone.
#[derive(Clone, Copy)]
pub(crate) struct Lanes {
    modules: usize,
    slots: usize,
    mids: usize,
    outs: usize,
    first: usize,
    end: usize,
}

impl Lanes {
    /// Kept out of line, so that the loop over outputs is compiled with these places as plain numbers, and counts by one of them.
    #[inline(never)]
    pub(crate) fn of(shape: Shape, output_module: u16) -> Lanes
        ensures { result ≡ lanes_of shape output_module }
    {
        let module = output_module as usize;
        let slots = shape.slots() as usize;
        let outs = cell::ins(shape) + cell::mids(shape);
        let first = outs + module * slots;
        Lanes {
            modules: shape.modules() as usize,
            slots,
            mids: cell::ins(shape) + module,
            outs,
            first,
            end: first + slots,
        }
    }

    /// Those of the next module, which lie behind them.
    #[inline(always)]
    pub(crate) fn next(self, shape: Shape, output_module: u16) -> Lanes
        requires lanes { self ≡ lanes_of shape output_module }
        requires place { output_module < shape.modules }
        ensures { result ≡ lanes_of shape (output_module + 1) }
    {
        // They lie within the table.
        let _ = (shape.slots(), output_module);
        Lanes {
            modules: self.modules,
            slots: self.slots,
            mids: self.mids + 1,
            outs: self.outs,
            first: self.end,
            end: self.end + self.slots,
        }
    }
}

/// The byte of one output.
#[inline(always)]
fn carry_one(
    fabric: &Fabric,
    reader: &mut Reader,
    lanes: Lanes,
    output: Port,
    place: usize,
    input: &[u8],
) -> u8
    requires own { reader.old.fabric ≡ fabric.now }
    requires size { IsSize reader.old.fabric.size }
    requires allowed { CanLoadOut reader.old.fabric.size output reader.old.worker }
    requires lanes { lanes ≡ lanes_of reader.old.fabric.size.shape
        (module_of reader.old.fabric.size.shape output) }
    requires place { place ≡ out_place reader.old.fabric.size.shape output }
    requires room { length input.now ≡ ports reader.old.fabric.size.shape }
    ensures fabric { reader.new.fabric ≡ reader.old.fabric }
    ensures carried { (ns : List Note) × (reader.new.worker ≡ with_notes ns reader.old.worker)
        × Carries (fed reader.old.fabric.size reader.old.worker.number input.now) output ns result }
{
    let word = reader.load_out(fabric, output, place);
    if word == 0 {
        return IDLE;
    }
    let row = (word % 256) as usize * lanes.modules;
    let module = reader.load_mid(fabric, lanes.mids + row) as usize;
    let slot = reader.load_in(fabric, row + module) as usize;
    input[(module - 1) * lanes.slots + (slot - 1)]
}

/// The bytes of the outputs of one module, three loads each.
#[inline(always)]
pub(crate) fn carry_outputs(
    fabric: &Fabric,
    reader: &mut Reader,
    output_module: u16,
    lanes: Lanes,
    input: &[u8],
    output: &mut [u8],
)
    requires own { reader.old.fabric ≡ fabric.now }
    requires size { IsSize reader.old.fabric.size }
    requires runs { Runs reader.old.worker × (reader.old.worker.hold ≡ Empty) }
    requires lanes { lanes ≡ lanes_of reader.old.fabric.size.shape output_module }
    requires place { (output_module < reader.old.fabric.size.shape.modules)
        × (output_module % reader.old.fabric.size.workers ≡ reader.old.worker.number) }
    requires room { (length input.now ≡ ports reader.old.fabric.size.shape)
        × (length output.old ≡ ports reader.old.fabric.size.shape) }
    ensures fabric { reader.new.fabric ≡ reader.old.fabric }
    ensures carried { (ns : List Note) × (reader.new.worker ≡ with_notes ns reader.old.worker)
        × IsRowWritten (fed reader.old.fabric.size reader.old.worker.number input.now)
        (row_from (output_module * reader.old.fabric.size.shape.slots)
        reader.old.fabric.size.shape.slots) output.old output.new ns }
{
    let _ = output_module;
    for place in lanes.first..lanes.end {
        let port = place - lanes.outs;
        output[port] = carry_one(fabric, reader, lanes, Port(port as u16), place, input);
    }
}
