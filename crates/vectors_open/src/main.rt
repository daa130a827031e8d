// Stored vaults, good and refused, opened by their credentials as the program `open` opens them.
//
// Standard input has a line for each case: its name, the vault's file, the password's bytes and the key file's bytes
// (crates/vectors, `table`: `-` where there is none). A case that opens gives a row `document name length number
// digits` (the crate `vectors`), with SHA-256 of the document; one that is refused its name and the line that a
// technician sees. Behind them stands the line of every refusal, in the order of the numbers: the sentences of
// docs/REFUSALS.md. 524,288 words of memory are lent for Argon2. tools/vectors_open.py writes stdin, data and stdout.
#![tactic(auto)]

use refusals::Refusal;
use std::io;
use std::rt::Files;
use unlocking::{Unlocked, input, report};
use vectors::table::{self, Lines, bytes, field, is_given};

fn main(rt: HostRuntime) -> io::Result<()> {
    let cases = table::read(&rt, 65_536)?;
    for line in Lines::of(&cases) {
        case(&rt, line)?;
    }
    every_refusal(&rt)
}

// The case of a line.
fn case(rt: &(impl Files + Print + Eprint + Alloc), line: &[u8]) -> io::Result<()> {
    let mut space = input::room();
    match input::read_file(rt, field(line, 1), &mut space) {
        Ok(n) => open_file(rt, line, slices::part(&space, 0, n)),
        Err(_) => rt.write_all(b"not there\n"),
    }
}

// Opens a vault by the credentials of a line, and writes a row of its document, or the line of its refusal.
fn open_file(rt: &(impl Print + Eprint + Alloc), line: &[u8], file: &[u8]) -> io::Result<()> {
    let name = field(line, 0);
    let mut password = console::buffer();
    let mut key_file = console::buffer();
    let m = bytes(field(line, 2), &mut password);
    let k = bytes(field(line, 3), &mut key_file);
    let mut memory = vec![in rt.alloc(); 0u64; 524_288]?;
    let mut out = console::large_buffer();
    match unlocking::unlock(
        rt,
        file,
        is_given(field(line, 2)).then_some(slices::part(&password, 0, m)),
        is_given(field(line, 3)).then_some(slices::part(&key_file, 0, k)),
        &mut out,
        &mut memory,
    ) {
        Unlocked::Refused(why) => {
            show_name(rt, name)?;
            report::refusal(rt, why)
        }
        Unlocked::PayloadRefused(why) => {
            show_name(rt, name)?;
            report::payload_refusal(rt, why)
        }
        Unlocked::Document(start, end) => show_document(
            rt,
            name,
            slices::part(slices::part(&out, 0, end), start, end),
        ),
    }
}

// The row of a document.
fn show_document(rt: &impl Print, name: &[u8], document: &[u8]) -> io::Result<()> {
    let digest = sha256::hash(document).digest;
    vectors::row(rt, b"document", name, document.len(), 0, &digest)
}

// The name of a case that is refused, in front of its line.
fn show_name(rt: &impl Print, name: &[u8]) -> io::Result<()> {
    rt.write_all(name)?;
    rt.write_all(b" ")
}

// The line of every refusal, in the order of the numbers.
fn every_refusal(rt: &impl Print) -> io::Result<()> {
    for why in [
        Refusal::TooLong,
        Refusal::CutShort(0),
        Refusal::WrongSignature(0),
        Refusal::WrongVersion(0),
        Refusal::WrongSize(0),
        Refusal::Repeated(0),
        Refusal::UnknownField(0),
        Refusal::Absent(0),
        Refusal::Unlisted(0),
        Refusal::BrokenDictionary(0),
        Refusal::TooManyRounds(0),
        Refusal::HeaderHash,
        Refusal::HeaderTag,
        Refusal::BlockTag,
        Refusal::TrailingBytes,
        Refusal::WrongPadding,
        Refusal::NoRoom,
        Refusal::WrongCredential,
        Refusal::OutOfSequence,
        Refusal::TooFewRounds(0),
        Refusal::FigureOutside(0),
    ] {
        report::refusal(rt, why)?;
    }
    Ok(())
}
