use crate::mover::MoverSeat;
use crate::place;
use crate::plays::Deals;
use crate::reader::Reader;
use crate::table::{Board, Token};
use crate::worker::WorkerSeat;
use atomic_table::Table;
use dxc_causes::NoMemory;
use dxc_num::Shape;
use fabric_core::Size;
use std::alloc::Global;
use std::marker::Model;

/// The registers and the frame words, shared by one mover and its workers.
#[derive(Drop)]
pub struct Fabric {
    pub(crate) board: Board,
    pub(crate) size: Size,
}

impl Model for Fabric {
    ghost use Rattle.std.specs.Prelude.{◌≡◌};
    ghost use Rattle.fabric_core.specs.State.{IsSize};
    ghost use Rattle.fabric_words.specs.Places.{word_count};
    ghost use Rattle.fabric_words.specs.Seats.{FabricId};

    ghost Value = { FabricId };

    ghost view = { λ f. record { table = f.board.shared.table_id; size = f.size } };

    ghost invariant = { λ f. (f.board.shared.key ≡ f.size)
        × (f.board.shared.table_id.words ≡ word_count f.size) × IsSize f.size };
}

impl Fabric {
    ghost use Rattle.std.specs.Prelude.{◌≡◌, ◌+◌, ◌<◌, ◌≤◌, [], length, IfOk};
    ghost use Rattle.dxc_num.specs.Dimensions.{IsInLimits};
    ghost use Rattle.fabric_core.specs.State.{new_mover, new_worker};
    ghost use Rattle.fabric_words.specs.declared.table.View.TheVariants.{AsMover};
    ghost use Rattle.fabric_words.specs.New.{AreNew};

    /// The registers of a network and the frame words of 1 to 8 workers, all 0, with a seat for the mover and one for each worker, by number.
    pub fn new(
        alloc: Global,
        shape: Shape,
        workers: u16,
    ) -> Result<(Fabric, MoverSeat, Vec<WorkerSeat>), NoMemory>
        requires { (0 < workers) × (workers ≤ 8) }
        ensures fabric { IfOk result (λ t. t.0.size ≡ record { shape = shape; workers = workers }) }
        ensures mover { IfOk result (λ t. t.1 ≡ record
            { fabric = t.0; mover = new_mover (record { shape = shape; workers = workers }) }) }
        ensures workers { IfOk result (λ t. (length t.2.items ≡ workers) × AreNew t.0 0 t.2.items) }
    {
        let mut seats = Vec::with_capacity(alloc, workers as usize)?;
        let (fabric, mut token) = Fabric::lay(alloc, shape, workers)?;
        for number in 0..workers {
            let seat = fabric.deal(&mut token, number);
            seats.push(seat)?;
        }
        let size = Size { shape, workers };
        Ok((fabric, MoverSeat::of(token, size), seats))
    }

    /// The table with all words 0, and its first seat.
    fn lay(alloc: Global, shape: Shape, workers: u16) -> Result<(Fabric, Token), NoMemory>
        requires { (0 < workers) × (workers ≤ 8) }
        ensures size { IfOk result (λ t. t.0.size ≡ record { shape = shape; workers = workers }) }
        ensures token { IfOk result (λ t. (t.1.table_id ≡ t.0.table)
            × (t.1.me ≡ (AsMover t.0.size 0 (new_mover t.0.size), []))) }
    {
        let words = Vec::from_elem(alloc, 0u64, place::of_frame(shape, workers))?;
        let size = Size { shape, workers };
        let (board, token): (Board, Token) = Table::of_words(alloc, words.as_slice(), &size)?;
        Ok((Fabric { board, size }, token))
    }

    /// A seat for the next worker.
    fn deal(&self, token: &mut Token, number: u16) -> WorkerSeat
        requires own { token.old.table_id ≡ self.now.table }
        requires mover { token.old.me
            ≡ (AsMover self.now.size number (new_mover self.now.size), []) }
        requires low { number < self.now.size.workers }
        ensures kept { (token.new.table_id ≡ token.old.table_id)
            × (token.new.me ≡ (AsMover self.now.size (number + 1) (new_mover self.now.size), [])) }
        ensures dealt { result.reader ≡ record { fabric = self.now; worker = new_worker number } }
    {
        let seat = self.board.shared.split_seat::<Deals>(token);
        WorkerSeat::of(Reader::of(seat, self.size, number))
    }

    /// The shape of its network.
    pub fn shape(&self) -> Shape
        ensures value { result ≡ self.now.size.shape }
        ensures limits { IsInLimits self.now.size.shape }
    {
        self.size.shape
    }

    /// How many workers carry its frames, 1 to 8.
    pub fn workers(&self) -> u16
        ensures value { result ≡ self.now.size.workers }
        ensures limits { (0 < result) × (result ≤ 8) }
    {
        self.size.workers
    }
}
