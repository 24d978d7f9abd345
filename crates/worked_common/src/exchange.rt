use crate::wanted::{add_completed, add_wanted};
use crate::words::{Line, add_hex, add_texts, number_of, two};
use anyhow::Result;
use std::alloc::Global;

/// What is sent over a link and what must be written to it.
#[derive(Drop)]
pub struct Exchange {
    pub input: Vec<u8>,
    /// The lengths of the pieces in which the input is read first; 0 means that nothing comes for a time.
    pub pieces: Vec<usize>,
    pub output: Vec<u8>,
}

impl Exchange {
    pub fn new(alloc: Global) -> Exchange {
        Exchange {
            input: Vec::new(alloc),
            pieces: Vec::new(alloc),
            output: Vec::new(alloc),
        }
    }

    /// Takes a line of its own, for an element of this name; false where the word is none of its own.
    pub fn take(&mut self, sid: &str, word: &str, rest: &str) -> Result<bool> {
        let taken = match word {
            "login" => self.take_login(sid, rest),
            "send" => add_texts(&[rest], &mut self.input),
            "hex" => add_hex(rest, &mut self.input),
            "fill" => self.take_fill(rest),
            "pieces" => self.take_pieces(rest),
            "list" => add_texts(&[rest, "\n"], &mut self.output),
            _ => return add_wanted(sid, word, rest, &mut self.output),
        };
        taken?;
        Ok(true)
    }

    fn take_login(&mut self, sid: &str, rest: &str) -> Result<()> {
        let (uid, tag) = two(rest)?;
        add_texts(&["ACT-USER::", uid, ":", tag, "::bc;"], &mut self.input)?;
        add_completed(sid, tag, &mut self.output)
    }

    fn take_fill(&mut self, rest: &str) -> Result<()> {
        let line = Line::of(rest);
        for _ in 0..number_of(line.word)? {
            add_texts(&[line.rest], &mut self.input)?;
        }
        Ok(())
    }

    fn take_pieces(&mut self, rest: &str) -> Result<()> {
        for length in rest.split(' ') {
            self.pieces.push(number_of(length)? as usize)?;
        }
        Ok(())
    }
}
