ghost use Rattle.std.specs.Prelude.{◌≡◌, ◌≢◌, ◌-◌, ◌<◌};
ghost use Rattle.dxc_num.specs.Dimensions.{IsPort};
ghost use Rattle.fabric_core.specs.State.{new_worker};
ghost use Rattle.fabric_core.specs.Working.{Runs, CanBegin, CanLoadOut, HasOutput, HasPath, begun, out_loaded, mid_loaded, in_loaded, port_of};

use crate::fabric::Fabric;
use crate::place;
use crate::reader::Reader;
use dxc_num::Port;
use fabric_core::Hold;

/// The seat of a worker that carries frames. It remembers what its last load gave to follow.
#[derive(Drop)]
pub struct WorkerSeat {
    pub reader: Reader,
    hold: Hold,
    ghost remembers: { hold ≡ reader.worker.hold },
}

impl WorkerSeat {
    pub(crate) fn of(reader: Reader) -> WorkerSeat
        requires { reader.worker ≡ new_worker reader.worker.number }
        ensures { result.reader ≡ reader }
    {
        WorkerSeat {
            reader,
            hold: Hold::Empty,
        }
    }

    /// The worker's number.
    pub fn number(&self) -> u16
        ensures value { result ≡ self.now.reader.worker.number }
        ensures low { result < self.now.reader.fabric.size.workers }
    {
        self.reader.number()
    }

    /// A frame begins: the frame word becomes odd.
    pub fn begin_frame(&mut self, fabric: &Fabric)
        requires own { self.old.reader.fabric ≡ fabric.now }
        requires allowed { CanBegin self.old.reader.worker }
        ensures fabric { self.new.reader.fabric ≡ self.old.reader.fabric }
        ensures event { self.new.reader.worker ≡ begun self.old.reader.worker }
    {
        self.reader.begin_frame(fabric);
        self.hold = Hold::Empty;
    }

    /// Loads OUT of an output of the worker's modules.
    pub fn load_out(&mut self, fabric: &Fabric, output: Port) -> u64
        requires own { self.old.reader.fabric ≡ fabric.now }
        requires allowed { CanLoadOut self.old.reader.fabric.size output self.old.reader.worker }
        ensures fabric { self.new.reader.fabric ≡ self.old.reader.fabric }
        ensures event { self.new.reader.worker ≡ out_loaded output result self.old.reader.worker }
    {
        let place = place::of_out(fabric.shape(), output);
        let word = self.reader.load_out(fabric, output, place);
        self.hold = Hold::of(output, word);
        word
    }

    /// Loads the MID word that the OUT word loaded before names.
    pub fn load_mid(&mut self, fabric: &Fabric) -> u64
        requires own { self.old.reader.fabric ≡ fabric.now }
        requires allowed { HasOutput self.old.reader.worker.hold }
        ensures fabric { self.new.reader.fabric ≡ self.old.reader.fabric }
        ensures event { self.new.reader.worker ≡ mid_loaded result self.old.reader.worker }
        ensures named { (result ≢ 0) × (result - 1 < self.old.reader.fabric.size.shape.modules) }
    {
        let Hold::Output {
            output,
            number,
            middle,
        } = self.hold
        else {
            unreachable!()
        };
        let shape = fabric.shape();
        let place = place::of_mid(shape, middle, shape.module_of(output));
        let word = self.reader.load_mid(fabric, place);
        self.hold = Hold::Path {
            output,
            number,
            middle,
            module: (word - 1) as u16,
        };
        word
    }

    /// Loads the IN word that the OUT word and the MID word loaded before name. It names a port of the shape.
    pub fn load_in(&mut self, fabric: &Fabric) -> u64
        requires own { self.old.reader.fabric ≡ fabric.now }
        requires allowed { HasPath self.old.reader.worker.hold }
        ensures fabric { self.new.reader.fabric ≡ self.old.reader.fabric }
        ensures event { self.new.reader.worker ≡ in_loaded self.old.reader.fabric.size.shape result
            self.old.reader.worker }
        ensures some_word { result ≢ 0 }
        ensures port { IsPort self.old.reader.fabric.size.shape
            (port_of self.old.reader.fabric.size.shape self.old.reader.worker.hold result) }
    {
        let Hold::Path {
            output: _,
            number: _,
            middle,
            module,
        } = self.hold
        else {
            unreachable!()
        };
        let place = place::of_in(fabric.shape(), module, middle);
        let word = self.reader.load_in(fabric, place);
        self.hold = Hold::Empty;
        word
    }

    /// The frame ends: the frame word becomes even.
    pub fn end_frame(&mut self, fabric: &Fabric)
        requires own { self.old.reader.fabric ≡ fabric.now }
        requires allowed { Runs self.old.reader.worker }
        ensures fabric { self.new.reader.fabric ≡ self.old.reader.fabric }
        ensures event { self.new.reader.worker ≡ begun self.old.reader.worker }
    {
        self.reader.end_frame(fabric);
        self.hold = Hold::Empty;
    }
}
