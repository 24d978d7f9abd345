//! The steps of a worker.
ghost use Rattle.std.specs.Prelude.{◌≡◌, ◌≢◌, ◌-◌, ◌<◌, ◌%◌, []};
ghost use Rattle.dxc_num.specs.Dimensions.{IsPort};
ghost use Rattle.fabric_core.specs.State.{IsSize, new_worker};
ghost use Rattle.fabric_core.specs.Working.{Runs, CanBegin, CanLoadOut, begun, out_loaded, mid_loaded, in_loaded, port_of};
ghost use Rattle.fabric_words.specs.declared.table.View.TheVariants.{AsWorker};
ghost use Rattle.fabric_words.specs.Places.{out_place};
ghost use Rattle.fabric_words.specs.Seats.{FabricId, IsMidPlace, IsInPlace};

use crate::fabric::Fabric;
use crate::place;
use crate::plays::{Begins, LoadsIn, LoadsMid, LoadsOut};
use crate::table::Token;
use dxc_num::Port;
use fabric_core::Size;
use std::marker::Model;

/// A worker's right to step on the words. Each call of it is one atomic step, and is told where its word lies: it keeps nothing of what it
/// read, so a loop over it costs no more than its loads.
#[derive(Drop)]
pub struct Reader {
    token: Token,
    size: Size,
    number: u16,
}

impl Model for Reader {
    ghost use Rattle.std.specs.Prelude.{◌≡◌};
    ghost use Rattle.fabric_words.specs.Seats.{WorkerAt, worker_in, IsReader};

    ghost Value = { WorkerAt };

    ghost view = { λ r. record {
      fabric = record { table = r.token.table_id; size = r.size };
      worker = worker_in r.token.me.0;
    } };

    ghost invariant = { λ r. IsReader r.size r.token.me
        × (r.number ≡ (worker_in r.token.me.0).number) };
}

impl Reader {
    pub(crate) fn of(token: Token, size: Size, number: u16) -> Reader
        requires sized { IsSize size }
        requires low { number < size.workers }
        requires role { token.me ≡ (AsWorker size (new_worker number), []) }
        ensures { result ≡ record {
          fabric = record { table = token.table_id; size = size };
          worker = new_worker number;
        } }
    {
        Reader {
            token,
            size,
            number,
        }
    }

    /// The worker's number.
    pub fn number(&self) -> u16
        ensures value { result ≡ self.now.worker.number }
        ensures low { result < self.now.fabric.size.workers }
    {
        self.number
    }

    /// The frame word becomes odd: a frame begins.
    #[inline(always)]
    pub fn begin_frame(&mut self, fabric: &Fabric)
        requires own { self.old.fabric ≡ fabric.now }
        requires allowed { CanBegin self.old.worker }
        ensures fabric { self.new.fabric ≡ self.old.fabric }
        ensures event { self.new.worker ≡ begun self.old.worker }
    {
        let word = place::of_frame(self.size.shape, self.number);
        fabric
            .board
            .shared
            .fetch_add::<Begins>(&mut self.token, word, 1);
    }

    /// Loads OUT of an output of the worker's modules, which lies at this place.
    #[inline(always)]
    pub fn load_out(&mut self, fabric: &Fabric, output: Port, place: usize) -> u64
        requires own { self.old.fabric ≡ fabric.now }
        requires allowed { CanLoadOut self.old.fabric.size output self.old.worker }
        requires place { place ≡ out_place self.old.fabric.size.shape output }
        ensures fabric { self.new.fabric ≡ self.old.fabric }
        ensures event { self.new.worker ≡ out_loaded output result self.old.worker }
        ensures named { result ≢ 0 → 0 < result % 256 }
    {
        let _ = output;
        fabric.board.shared.load::<LoadsOut>(&mut self.token, place)
    }

    /// Loads the MID word that the OUT word names, which lies at this place.
    #[inline(always)]
    pub fn load_mid(&mut self, fabric: &Fabric, place: usize) -> u64
        requires own { self.old.fabric ≡ fabric.now }
        requires place { IsMidPlace self.old.fabric.size.shape self.old.worker.hold place }
        ensures fabric { self.new.fabric ≡ self.old.fabric }
        ensures event { self.new.worker ≡ mid_loaded result self.old.worker }
        ensures named { (result ≢ 0) × (result - 1 < self.old.fabric.size.shape.modules) }
    {
        fabric.board.shared.load::<LoadsMid>(&mut self.token, place)
    }

    /// Loads the IN word that the OUT and MID words name, which lies at this place.
    #[inline(always)]
    pub fn load_in(&mut self, fabric: &Fabric, place: usize) -> u64
        requires own { self.old.fabric ≡ fabric.now }
        requires place { IsInPlace self.old.fabric.size.shape self.old.worker.hold place }
        ensures fabric { self.new.fabric ≡ self.old.fabric }
        ensures event { self.new.worker ≡ in_loaded self.old.fabric.size.shape result
            self.old.worker }
        ensures some_word { result ≢ 0 }
        ensures port { IsPort self.old.fabric.size.shape
            (port_of self.old.fabric.size.shape self.old.worker.hold result) }
    {
        fabric.board.shared.load::<LoadsIn>(&mut self.token, place)
    }

    /// The frame word becomes even: the frame ends.
    #[inline(always)]
    pub fn end_frame(&mut self, fabric: &Fabric)
        requires own { self.old.fabric ≡ fabric.now }
        requires allowed { Runs self.old.worker }
        ensures fabric { self.new.fabric ≡ self.old.fabric }
        ensures event { self.new.worker ≡ begun self.old.worker }
    {
        let word = place::of_frame(self.size.shape, self.number);
        fabric
            .board
            .shared
            .fetch_add::<Begins>(&mut self.token, word, 1);
    }
}
