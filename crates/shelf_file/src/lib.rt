//! The shelf file: the element's name, shape, equipped modules and users, read from TOML; and the shelf of an element on trial.
#![tactic(auto)]

mod document;
mod fault;
mod idle;
mod keys;
mod lists;
mod reading;
mod shelf;
mod trial;
mod user;
mod users;
mod values;

pub use fault::{ShelfFault, ShelfKey};
pub use idle::IdleLimits;
pub use reading::shelf_of;
pub use shelf::Shelf;
pub use trial::trial_shelf;
pub use user::is_uid;
