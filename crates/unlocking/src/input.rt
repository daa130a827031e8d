// What the programs read: a file by its name, and a line.
//
// Of what is read nothing is promised but that each function is safe and ends.
ghost use Rattle.std.specs.Prelude.{◌≡◌, length};

use std::fs::File;
use std::io;
use std::io::Read;
use std::rt::Files;

// Room for a PC program's input, and one byte more, so that a longer one is seen to be longer.
pub fn room() -> [u8; 65_537]
    ensures { 65537 ≡ length result }
{
    [0; 65_537]
}

// Opens a file to read it. A path is text, so bytes that are none name no file.
fn open<R: Files>(rt: &R, path: &[u8]) -> io::Result<R::File> {
    match str::from_utf8(path) {
        Ok(path) => File::open(rt, path),
        Err(_) => Err(io::Error::from(io::ErrorKind::InvalidFilename)),
    }
}

// Reads a file from its start, as much as `buf` has room for, and answers how many bytes those are, or why the file
// cannot be opened. A read that fails counts as the file's end.
pub fn read_file(rt: &impl Files, path: &[u8], buf: &mut [u8]) -> io::Result<usize> {
    let mut file = open(rt, path)?;
    Ok(console::read_full(&mut file, buf))
}

// Reads one byte, so that nothing behind a line is taken: none at the input's end.
fn read_byte(from: &mut impl Read) -> Option<u8> {
    let mut b = [0u8; 1];
    if console::read_full(from, &mut b) == 1 {
        return Some(b[0]);
    }
    None
}

// Reads a line, as much as `buf` has room for, and answers its length without its line feed: an empty line is one, an
// input of no bytes is not.
pub fn read_line(from: &mut impl Read, buf: &mut [u8]) -> Option<usize> {
    for (at, x) in buf.iter_mut().enumerate() {
        match read_byte(from) {
            None => return (0 < at).then_some(at),
            Some(b'\n') => return Some(at),
            Some(b) => *x = b,
        }
    }
    Some(buf.len())
}
