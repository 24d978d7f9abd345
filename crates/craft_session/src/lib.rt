//! One technician's session, from bytes to bytes: units are read, understood, done on the table or the users, and answered.
#![tactic(auto)]

mod act;
mod ask;
mod attending;
mod cancelled;
mod change;
mod desk;
mod end;
mod guesses;
mod lent;
mod meaning;
mod mend;
mod noting;
mod patience;
mod place;
pub mod places;
mod program;
mod reports;
mod say;
mod seat;
mod secrets;
mod serving;
mod session;
mod shown;
mod timestamps;
mod unit;
mod user_commands;
mod users;

pub use end::SessionEnd;
pub use lent::Lent;
pub use place::Place;
pub use serving::{serve_caller, serve_session, serve_session_of};
pub use timestamps::Timestamps;
