//! Many connections: each port's to the one so many after it.
use crate::words::{Line, add_texts, decimal, shape_of, small_of};
use anyhow::Result;
use std::alloc::Global;

/// The first so many ports of a shape, and how far each is connected.
#[derive(Clone, Copy)]
pub struct Entries {
    modules: u16,
    slots: u16,
    pub count: u16,
    step: u16,
}

impl Entries {
    /// The four numbers of the text.
    pub fn of(text: &str) -> Result<Entries> {
        let modules = Line::of(text);
        let slots = Line::of(modules.rest);
        let (count, step) = shape_of(slots.rest)?;
        Ok(Entries {
            modules: small_of(modules.word)?,
            slots: small_of(slots.word)?,
            count,
            step,
        })
    }

    /// Appends the names of each port and of the one it is connected to, in the table's order, between these texts.
    pub fn add_all(
        self,
        alloc: Global,
        front: &str,
        behind: &str,
        into: &mut Vec<u8>,
    ) -> Result<()> {
        for port in 0..self.count {
            self.add(alloc, port, front, behind, into)?;
        }
        Ok(())
    }

    /// The same of one port.
    pub fn add(
        self,
        alloc: Global,
        port: u16,
        front: &str,
        behind: &str,
        into: &mut Vec<u8>,
    ) -> Result<()> {
        let ports = self.modules.saturating_mul(self.slots);
        let to = port.saturating_add(self.step).checked_rem(ports);
        self.add_name(alloc, front, port, into)?;
        self.add_name(alloc, ",", to.unwrap_or(0), into)?;
        add_texts(&[behind], into)
    }

    fn add_name(self, alloc: Global, front: &str, port: u16, into: &mut Vec<u8>) -> Result<()> {
        let module = port.checked_div(self.slots).unwrap_or(0) as u64 + 1;
        let slot = port.checked_rem(self.slots).unwrap_or(0) as u64 + 1;
        add_texts(
            &[front, "DS0-", decimal(alloc, module)?.as_str(), "-"],
            into,
        )?;
        add_texts(&[decimal(alloc, slot)?.as_str()], into)
    }
}
