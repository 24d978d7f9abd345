use crate::words::{Line, number_of, two};
use anyhow::{Result, ensure};
use std::alloc::Global;

/// Lines of a row, one after the other, and the number for which the row is run.
#[derive(Clone, Copy)]
pub struct Part<'m, 'a> {
    pub lines: &'m [Line<'a>],
    pub number: u64,
}

impl<'m, 'a> Part<'m, 'a> {
    /// What stands after the word, in the last line that begins with it.
    pub fn last(&self, word: &str) -> Option<&'a str> {
        let mut last = None;
        for line in self.lines {
            if line.word == word {
                last = Some(line.rest);
            }
        }
        last
    }

    /// An error where a line begins with none of these words.
    pub fn known(self, words: &[&str]) -> Result<()> {
        for line in self.lines {
            ensure!((&*words).contains(&line.word), "a word isn't known");
        }
        Ok(())
    }

    /// The rows of these lines, the last one first. Each line begins with one of these words.
    pub fn rows(self, alloc: Global, words: &[&str]) -> Result<Vec<Part<'m, 'a>>> {
        self.known(words)?;
        let head = self.front(&["row"]);
        ensure!(head.lines.is_empty(), "a line stands before the first row");
        self.parts(alloc, &["row"])
    }

    /// The name of the row.
    pub fn name(&self) -> &'a str {
        self.last("row").unwrap_or("")
    }

    /// The first and the last number for which the row is run.
    pub fn each(&self) -> Result<(u64, u64)> {
        let (first, last) = two(self.last("each").unwrap_or("0 0"))?;
        Ok((number_of(first)?, number_of(last)?))
    }

    /// Whether a line begins with the word.
    pub fn has(&self, word: &str) -> bool {
        self.last(word).is_some()
    }

    /// The number after the word.
    pub fn number_at(&self, word: &str) -> Result<Option<u64>> {
        match self.last(word) {
            Some(text) => Ok(Some(self.number_in(text)?)),
            None => Ok(None),
        }
    }

    /// The number that the text spells: N is the number of the row, N-1 one less where it isn't 0, N/2 half of it.
    pub fn number_in(&self, text: &str) -> Result<u64> {
        match text {
            "N" => Ok(self.number),
            "N-1" => Ok(self.number.saturating_sub(1)),
            "N/2" => Ok(self.number / 2),
            _ => number_of(text),
        }
    }

    /// The numbers of the calls of this kind that fail.
    pub fn failing(&self, alloc: Global, kind: &str) -> Result<Vec<u64>> {
        let mut numbers = Vec::new(alloc);
        for line in self.lines {
            if line.word == "fails" {
                let calls = Line::of(line.rest);
                if calls.word == kind {
                    self.add_numbers(calls.rest, &mut numbers)?;
                }
            }
        }
        Ok(numbers)
    }

    fn add_numbers(&self, texts: &str, numbers: &mut Vec<u64>) -> Result<()> {
        for text in texts.split(' ') {
            numbers.push(self.number_in(text)?)?;
        }
        Ok(())
    }

    /// The lines in front of the first that begins with one of the words.
    pub fn front(self, words: &[&str]) -> Part<'m, 'a> {
        for at in 0..self.lines.len() {
            if self.begins(at, words) {
                return self.between(0, at);
            }
        }
        self
    }

    /// From each line that begins with one of the words the lines up to the next such one, the last ones first.
    pub fn parts(self, alloc: Global, words: &[&str]) -> Result<Vec<Part<'m, 'a>>> {
        let mut parts = Vec::new(alloc);
        let mut last = self.lines.len();
        for behind in 0..self.lines.len() {
            let at = self.lines.len() - 1 - behind;
            if self.begins(at, words) {
                parts.push(self.between(at, last))?;
                last = at;
            }
        }
        Ok(parts)
    }

    // Whether the line there begins with one of the words.
    fn begins(&self, at: usize, words: &[&str]) -> bool {
        match self.lines.get(at) {
            Some(line) => words.contains(&line.word),
            None => false,
        }
    }

    // The lines from the one place up to the other, all where there are no such places.
    fn between(self, first: usize, last: usize) -> Part<'m, 'a> {
        let number = self.number;
        match self.lines.get(first..last) {
            Some(lines) => Part { lines, number },
            None => self,
        }
    }
}
