// What the header listing program does (document 01, "Numbers to meet"), for programs that are run on one input each.
//
// It reads a vault's file from standard input, at most 65,536 bytes, and writes the frames of its outer header to
// standard output, each as a line of upper-case hexadecimal; or one line, R and the refusal's number with its place.
// The text is that of `listing::list`. Of what is read and written nothing is promised but that each function is safe
// and ends: the output of each program is compared.
#![tactic(auto)]

ghost use Rattle.std.specs.Prelude.{◌≡◌, length};

use std::io;

// Lists the header of the file on standard input.
pub fn list_input(rt: &(impl Input + Print)) -> io::Result<()> {
    let mut file = input();
    let n = console::read_input(rt, &mut file);
    let mut text = room();
    show(rt, &file[..n], &mut text)
}

// One byte more than the longest input, so that a longer one is seen to be longer.
fn input() -> [u8; 65_537]
    ensures { 65537 ≡ length result }
{
    [0; 65_537]
}

// Room for any text: no text has more than three bytes for each of the longest input (listing, Laws.Text, length-text).
fn room() -> [u8; 196_608]
    ensures { 196608 ≡ length result }
{
    [0; 196_608]
}

// Writes the text of a file to standard output.
fn show(rt: &impl Print, file: &[u8], text: &mut [u8]) -> io::Result<()> {
    match listing::list(file, text) {
        Ok(n) => rt.write_all(slices::part(text, 0, n)),
        Err(_) => Ok(()),
    }
}
