//! What is done for one command, leg by leg, and the register writes that it takes, in order.
#![tactic(auto)]

mod next;
mod op;
mod op_writes;
mod work;

pub use next::{Next, next_at_step};
pub use op::{Chain, Choice, LegOp, Move, Moves};
pub use op_writes::{MOVE, move_write, writes_of_join, writes_of_part};
pub use work::{Work, switches, write_at_step, writes};
