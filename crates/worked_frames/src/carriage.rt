ghost use Rattle.std.specs.Prelude.{◌≡◌, ◌*◌, ◌<◌, ◌^◌, length};
ghost use Rattle.std.specs.Arc.{arc_value};
ghost use Rattle.dxc_num.specs.Dimensions.{ports};

use dxc_causes::NoMemory;
use fabric_words::{Fabric, WorkerSeat};
use frame_worker::carry_frame;
use std::alloc::Global;
use std::sync::Arc;
use worked_common::IDLE;

/// The most frames of one worker.
const FRAMES: u64 = 1 << 61;

/// A worker that carries one frame over and over: of each port the letter of its number.
#[derive(Drop)]
pub struct Carriage {
    fabric: Arc<Fabric>,
    seat: WorkerSeat,
    frames: u64,
    input: Vec<u8>,
    output: Vec<u8>,
    ghost own: { seat.reader.fabric ≡ arc_value fabric },
    ghost counted: { seat.reader.worker.frame ≡ 2 * frames },
    ghost input_room: { length input.items ≡ ports (arc_value fabric).size.shape },
    ghost output_room: { length output.items ≡ ports (arc_value fabric).size.shape },
}

impl Carriage {
    pub fn new(alloc: Global, fabric: Arc<Fabric>, seat: WorkerSeat) -> Result<Carriage, NoMemory>
        requires own { seat.reader.fabric ≡ arc_value fabric }
        requires unused { seat.reader.worker.frame ≡ 0 }
    {
        let ports = fabric.shape().ports() as usize;
        let mut input = Vec::from_elem(alloc, 0, ports)?;
        for (port, byte) in input.iter_mut().enumerate() {
            *byte = b'a' + (port % 26) as u8;
        }
        let output = Vec::from_elem(alloc, IDLE, ports)?;
        Ok(Carriage {
            fabric,
            seat,
            frames: 0,
            input,
            output,
        })
    }

    /// Carries the next frame.
    pub fn carry(&mut self) {
        if self.frames < FRAMES {
            carry_frame(&self.fabric, &mut self.seat, &self.input, &mut self.output);
            self.frames += 1;
        }
    }

    /// What it wrote of the last frame.
    pub fn output(&self) -> &[u8] {
        &self.output
    }
}
