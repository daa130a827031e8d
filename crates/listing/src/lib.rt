// The text of the header listing program (document 01, "Numbers to meet").
//
//   03D9A29A67FB4BB501000400        signatures and version
//   0210000000D6038A2B…             a line for each field: ID, size and value
//   R07 12                          or, of a header that is refused, its number and place (R01 has none)
//
// `list` writes the text into a lent slice, all of it or nothing. The contracts cite specs/Listing. An input over
// 65,536 bytes has the text R01; an output that is too short is refusal 17.
#![tactic(auto)]

ghost use Rattle.std.specs.Prelude.{◌≡◌, ◌+◌, ◌*◌, ◌≤◌, ◌<◌, length, Ok};
ghost use Rattle.slices.specs.Over.{over};
ghost use Rattle.decimal.specs.Decimal as decimals;
ghost use Rattle.outer_header.specs.Kdbx4Header as kdbx4;
ghost use Rattle.outer_header.specs.Frames as frames;
ghost use Rattle.listing.specs.Listing as listing;

use outer_header::Header;
use refusals::Refusal;

// Writes a frame's line over the front of `out`.
fn put_line(out: &mut [u8], frame: &[u8])
    requires { 2 * length frame.now < length out.old }
    ensures { out.new ≡ over (listing.hex_line frame.now) out.old }
{
    let n = frame.len();
    hexadecimal::encode(out, frame);
    out[2 * n] = b'\n';
}

// How many bytes the field at a place has, which stands there whole.
fn frame_len(s: &[u8], at: usize) -> usize
    requires { at + frames.frame_length s.now at ≤ length s.now }
    ensures { result ≡ frames.frame_length s.now at }
{
    5 + words::le::u32_at(s, at + 1) as usize
}

// How many frames a header has.
fn count_frames(s: &[u8]) -> usize
    requires { frames.fields_end (length s.now) s.now 12 ≤ length s.now }
    ensures { result ≡ length (frames.frames s.now) }
{
    let mut n: usize = 1;
    let mut at: usize = 12;
    for _ in 0..s.len() {
        let end = at + frame_len(s, at);
        n += 1;
        let id = words::byte_at(s, at);
        if id == 0 {
            return n;
        }
        at = end;
    }
    n
}

// Writes the lines of all fields over the front of `out`.
fn put_fields(s: &[u8], out: &mut [u8])
    requires s_in_bounds { frames.fields_end (length s.now) s.now 12 ≤ length s.now }
    requires s_in_bounds_2 { length (listing.field_lines s.now) ≤ length out.old }
    ensures { out.new ≡ over (listing.field_lines s.now) out.old }
{
    let mut to: usize = 0;
    let mut at: usize = 12;
    for _ in 0..s.len() {
        let n = frame_len(s, at);
        put_line(&mut out[to..], slices::part(s, at, n));
        if words::byte_at(s, at) == 0 {
            return;
        }
        to += 2 * n + 1;
        at += n;
    }
}

// Writes the lines of all frames over the front of `out`.
fn put_lines(s: &[u8], out: &mut [u8])
    requires s_in_bounds { frames.fields_end (length s.now) s.now 12 ≤ length s.now }
    requires s_in_bounds_2 { length (listing.frame_lines s.now) ≤ length out.old }
    ensures { out.new ≡ over (listing.frame_lines s.now) out.old }
{
    put_line(out, slices::part(s, 0, 12));
    put_fields(s, &mut out[25..]);
}

// Writes the text of an accepted header.
fn list_frames(s: &[u8], h: Header, out: &mut [u8]) -> Result<usize, Refusal>
    requires { kdbx4.header s.now ≡ Ok h }
    ensures value { result ≡ listing.answer (listing.frame_lines s.now) out.old }
    ensures out_after { out.new ≡ listing.after (listing.frame_lines s.now) out.old }
{
    let n = 2 * h.length + count_frames(s);
    if n <= out.len() {
        put_lines(s, out);
        return Ok(n);
    }
    Err(Refusal::NoRoom)
}

// Writes the line of a number alone.
fn list_number(n: u8, out: &mut [u8]) -> Result<usize, Refusal>
    ensures value { result ≡ listing.answer (listing.number_line n) out.old }
    ensures out_after { out.new ≡ listing.after (listing.number_line n) out.old }
{
    if out.len() < 4 {
        return Err(Refusal::NoRoom);
    }
    out[0] = b'R';
    out[1] = b'0' + n / 10;
    out[2] = b'0' + n % 10;
    out[3] = b'\n';
    Ok(4)
}

// Writes a number, a space and the digits of a place over the front of `out`.
fn put_place(n: u8, digits: &[u8], out: &mut [u8])
    requires { 5 + length digits.now ≤ length out.old }
    ensures { out.new ≡ over (listing.placed_line n digits.now) out.old }
{
    let k = digits.len();
    out[0] = b'R';
    out[1] = b'0' + n / 10;
    out[2] = b'0' + n % 10;
    out[3] = b' ';
    slices::copy(&mut out[4..], digits);
    out[4 + k] = b'\n';
}

// Writes the line of a number and a place.
fn list_place(n: u8, place: usize, out: &mut [u8]) -> Result<usize, Refusal>
    ensures value { result ≡ listing.answer (listing.placed_line n (decimals.decimal place)) out.old }
    ensures out_after { out.new ≡ listing.after (listing.placed_line n (decimals.decimal place)) out.old }
{
    let d = decimal::decimal(place);
    let start = d.start;
    let text = d.text;
    let k = 25 - start;
    if out.len() < k {
        return Err(Refusal::NoRoom);
    }
    put_place(n, slices::part(&text, start, 20), out);
    Ok(k)
}

// Writes the text of a refusal.
fn list_refusal(why: Refusal, out: &mut [u8]) -> Result<usize, Refusal>
    ensures value { result ≡ listing.answer (listing.refusal_line why) out.old }
    ensures out_after { out.new ≡ listing.after (listing.refusal_line why) out.old }
{
    let n = why.number();
    if n == 1 {
        return list_number(n, out);
    }
    list_place(n, why.place(), out)
}

// Writes the text of an input over the front of `out`, and answers how long it is.
pub fn list(s: &[u8], out: &mut [u8]) -> Result<usize, Refusal>
    ensures value { result ≡ listing.answer (listing.text s.now) out.old }
    ensures out_after { out.new ≡ listing.after (listing.text s.now) out.old }
{
    if refusals::limits::program_input_fits(s.len()) {
        match outer_header::read(s) {
            Err(r) => return list_refusal(r, out),
            Ok(h) => return list_frames(s, h, out),
        }
    }
    list_refusal(Refusal::TooLong, out)
}
