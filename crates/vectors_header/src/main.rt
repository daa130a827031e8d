// The listing of outer headers: those that other programs wrote, and damaged ones for each refusal and for the order of
// the checks. And names that are looked up in dictionaries.
//
// Standard input has a line for each case: its name, the first bytes of a file, and the file's length, up to which
// zeros follow; or its name, a dictionary, the dictionary's length, and a name in it. Standard output has for each case
// its name and what `listing::list` writes, or what `dictionary::lookup` tells. tools/vectors_header.py writes both, by
// a reader of its own.
#![tactic(auto)]

use std::io;
use vectors::first;
use vectors::table::{self, Lines, decoded, field, is_given, number};

// One byte more than the longest input.
const LONGEST: usize = 65_537;

fn main(rt: HostRuntime) -> io::Result<()> {
    let cases = table::read(&rt, 262_144)?;
    // Room for any text (crate listing, Laws.Text, length-text), made once: filling it costs more than a listing.
    let mut text = vec![in rt.alloc(); 0u8; 196_608]?;
    for line in Lines::of(&cases) {
        answer(&rt, line, &mut text)?;
    }
    Ok(())
}

// The answer to a line, by whether it has a name to look up.
fn answer(rt: &(impl Print + AllocGlobal), line: &[u8], text: &mut [u8]) -> io::Result<()> {
    rt.write_all(field(line, 0))?;
    rt.write_all(b"\n")?;
    if is_given(field(line, 3)) {
        looked(rt, line)
    } else {
        listed(rt, line, text)
    }
}

// What is told of a name in a line's dictionary: `found`, the value's type, and the stretch that is shown; or `none`,
// and the place of a refusal. The number stands behind the type or place.
fn looked(rt: &(impl Print + AllocGlobal), line: &[u8]) -> io::Result<()> {
    let items = decoded(rt.alloc(), field(line, 1), 4_096)?;
    let name = decoded(rt.alloc(), field(line, 3), 32)?;
    let mut number: u8 = 255;
    let mut place: usize = 255;
    let mut found = true;
    let mut kind: u8 = 255;
    let value = dictionary::lookup(
        &items,
        &name,
        &mut number,
        &mut place,
        &mut found,
        &mut kind,
    );
    if found {
        vectors::row(rt, b"found", b"type", kind as usize, number, value)
    } else {
        vectors::row(rt, b"none", b"place", place, number, value)
    }
}

// The listing of a line's file, in lent room.
fn listed(rt: &(impl Print + AllocGlobal), line: &[u8], text: &mut [u8]) -> io::Result<()> {
    let mut file = decoded(rt.alloc(), field(line, 1), LONGEST)?;
    file.resize((number(field(line, 2)) as usize).min(LONGEST), 0)?;
    match listing::list(&file, text) {
        Ok(n) => rt.write_all(first(text, n)),
        Err(_) => rt.write_all(b"no room\n"),
    }
}
