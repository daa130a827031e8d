// How the programs report a refusal: a line with its number, where the fault is, what it means and what to do.
use refusals::Refusal;
use std::io;

// Writes `Refused 10`, ` at byte 133` and in what that byte is counted, and behind a colon the sentence of the refusal,
// as a line. A place of 0 is not told: it is the front, or there is none.
fn line(out: &impl Print, why: Refusal, counted: &[u8]) -> io::Result<()> {
    let s = explanations::explain(why);
    let text = s.text;
    let number = why.number();
    print!(out; "Refused {number}")?;
    let place = why.place();
    if place != 0 {
        print!(out; " at byte {place}")?;
        out.write_all(counted)?;
    }
    out.write_all(b": ")?;
    out.write_all(slices::part(&text, 0, s.length))?;
    out.write_all(b"\n")
}

// The line of a refusal of the vault's file, or of the credentials.
pub fn refusal(out: &impl Print, why: Refusal) -> io::Result<()> {
    line(out, why, b"")
}

// The line of a refusal of the payload that the vault holds.
pub fn payload_refusal(out: &impl Print, why: Refusal) -> io::Result<()> {
    line(out, why, b" of the contents")
}
