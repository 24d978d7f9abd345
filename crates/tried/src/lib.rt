//! Real files, streams, sockets and clocks, and steps of the fabric's plain data, which no program takes.
#![tactic(auto)]

#[cfg(test)]
mod clocks;
#[cfg(test)]
mod files;
#[cfg(test)]
mod steps;
#[cfg(test)]
mod streams;
