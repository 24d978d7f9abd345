use anyhow::Result;
use worked_common::{number_of, two};

/// The two numbers that the text spells.
pub fn pair_of(text: &str) -> Result<(usize, usize)> {
    let (one, other) = two(text)?;
    let one = number_of(one)? as usize;
    Ok((one, number_of(other)? as usize))
}
