//! The matrix of a network (Paull 1962): which leg stands on which middle, indexed by rows and columns.
#![tactic(auto)]

mod cell;
mod index;
mod matrix;
mod middle_set;
mod side;

pub use matrix::Matrix;
pub use middle_set::MiddleSet;
pub use side::Side;
