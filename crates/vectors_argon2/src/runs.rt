// The rows of a line.
use argon2::Kind;
use std::io;
use vectors::table::{array, decoded, field, number};

// The most bytes of a password, salt, secret, associated data or tag.
const MOST: usize = 128;

// Both rows of a line: the first words of `memory` are lent, as many as it says.
pub fn rows(rt: &(impl Print + AllocGlobal), line: &[u8], memory: &mut [u64]) -> io::Result<()> {
    let n = number(field(line, 10)) as usize;
    match memory.get_mut(..n) {
        Some(lent) => run(rt, line, lent),
        None => Ok(()),
    }
}

// A run of the function that a line names, in a memory that is filled by rule before.
fn run(rt: &(impl Print + AllocGlobal), line: &[u8], memory: &mut [u64]) -> io::Result<()> {
    let name = field(line, 0);
    let figures = Figures::of(line);
    crate::lent::fill(memory);
    match field(line, 1) {
        b"hash" => hash(rt, line, figures, memory)?,
        _ => transform(rt, line, figures, memory)?,
    }
    crate::lent::row(rt, name, memory)
}

// The figures of a run.
#[derive(Clone, Copy)]
struct Figures {
    kind: Kind,
    passes: u64,
    memory_bytes: u64,
    lanes: u32,
}

impl Figures {
    fn of(line: &[u8]) -> Self {
        Figures {
            kind: match number(field(line, 2)) {
                2 => Kind::Argon2id,
                _ => Kind::Argon2d,
            },
            passes: number(field(line, 7)),
            memory_bytes: number(field(line, 8)),
            lanes: (number(field(line, 9)) % 0x1_0000_0000) as u32,
        }
    }
}

// The key of a line's composite key.
fn transform(
    rt: &(impl Print + AllocGlobal),
    line: &[u8],
    figures: Figures,
    memory: &mut [u64],
) -> io::Result<()> {
    let salt = decoded(rt.alloc(), field(line, 4), MOST)?;
    let t = argon2::transform(
        figures.kind,
        array(field(line, 3)),
        &salt,
        figures.passes,
        figures.memory_bytes,
        figures.lanes,
        memory,
    );
    vectors::row(
        rt,
        b"transform",
        field(line, 0),
        32,
        refusals::number(t.outcome),
        &t.key,
    )
}

// The tag of a line's inputs, of as many bytes as it says, MOST at most.
fn hash(
    rt: &(impl Print + AllocGlobal),
    line: &[u8],
    figures: Figures,
    memory: &mut [u64],
) -> io::Result<()> {
    let mut space = [0x5au8; MOST];
    match space.get_mut(..number(field(line, 11)) as usize) {
        Some(tag) => hash_to(rt, line, figures, memory, tag),
        None => Ok(()),
    }
}

// The tag of a line's inputs, over `tag`.
fn hash_to(
    rt: &(impl Print + AllocGlobal),
    line: &[u8],
    figures: Figures,
    memory: &mut [u64],
    tag: &mut [u8],
) -> io::Result<()> {
    let password = decoded(rt.alloc(), field(line, 3), MOST)?;
    let salt = decoded(rt.alloc(), field(line, 4), MOST)?;
    let secret = decoded(rt.alloc(), field(line, 5), MOST)?;
    let associated = decoded(rt.alloc(), field(line, 6), MOST)?;
    let o = argon2::hash(
        figures.kind,
        &password,
        &salt,
        &secret,
        &associated,
        figures.passes,
        figures.memory_bytes,
        figures.lanes,
        memory,
        tag,
    );
    vectors::row(
        rt,
        b"hash",
        field(line, 0),
        tag.len(),
        refusals::number(o),
        tag,
    )
}
