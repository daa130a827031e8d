// What the programs share of reading, over std: arrays to read into, and reading as far as an array has room.
//
// Of what is read nothing is promised but that each function is safe and ends.
#![tactic(auto)]

ghost use Rattle.std.specs.Prelude.{◌≡◌, ◌≤◌, length};

use std::io::Read;

// 4,096 zeros. The `ensures` gives only the length, which lending the array as a slice needs.
pub fn buffer() -> [u8; 4_096]
    ensures { 4096 ≡ length result }
{
    [0; 4_096]
}

// 65,536 zeros, for much data.
pub fn large_buffer() -> [u8; 65_536]
    ensures { 65536 ≡ length result }
{
    [0; 65_536]
}

// Reads until `buf` is full, the input ends or a read fails, and answers how many bytes it put at the start of `buf`.
pub fn read_full<R: Read>(from: &mut R, buf: &mut [u8]) -> usize
    ensures { result ≤ length buf.new }
{
    let mut done: usize = 0;
    // A `while`: std has no read as far as the input goes, and a `for` of turns would read behind the last byte.
    while done < buf.len() {
        let n = read_some(from, &mut buf[done..]);
        if n == 0 {
            return done;
        }
        done += n;
    }
    done
}

// Reads once, and answers how many bytes it put at the start of `buf`: none at the input's end, or where the read fails.
fn read_some<R: Read>(from: &mut R, buf: &mut [u8]) -> usize
    ensures { result ≤ length buf.new }
{
    from.read(buf).unwrap_or(0)
}

// Reads standard input as far as `buf` has room.
pub fn read_input(rt: &impl Input, buf: &mut [u8]) -> usize
    ensures { result ≤ length buf.new }
{
    read_full(&mut rt.reader(), buf)
}
