// The lent memory: what stands in it before a run, and what of that is seen after it.
use std::io;

// Fills the memory by rule.
pub fn fill(memory: &mut [u64]) {
    for (i, word) in memory.iter_mut().enumerate() {
        *word = word_at(i);
    }
}

// The word at a place, by rule; no place has zero.
fn word_at(i: usize) -> u64 {
    i as u64 ^ 0xa5a5_a5a5_a5a5_a5a5
}

// The row of a case: how many words at the front are zeros, and how many at the end are as `fill` left them.
pub fn row(rt: &impl Print, name: &[u8], memory: &[u64]) -> io::Result<()> {
    let zeros = zeros(memory);
    let kept = kept(memory);
    rt.write_all(b"memory ")?;
    rt.write_all(name)?;
    println!(rt; " {zeros} {kept}")
}

// How many words at the front are zeros.
fn zeros(memory: &[u64]) -> usize {
    memory.iter().take_while(|word| **word == 0).count()
}

// How many words at the end are as `fill` left them.
fn kept(memory: &[u64]) -> usize {
    memory
        .iter()
        .enumerate()
        .rev()
        .take_while(|(i, word)| **word == word_at(*i))
        .count()
}
