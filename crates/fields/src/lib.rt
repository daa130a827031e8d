// A field of a header (document 01, "Header" and "Inner header"): an ID, a size and a value.
//
//   ID (one byte) | size (Int32) | value
//
// Both headers read their fields by `field_at`. What differs between them (which IDs are listed, which may recur, how
// long a value may be) comes as arguments. The contracts cite specs/Fields, and specs/Answers for what an answer says.
// Values are told by their places, and nothing is copied. Refusals: 2, 7, 6, 5 and 2, in this order. `put` writes a
// field.
#![tactic(auto)]

ghost use Rattle.std.specs.Prelude.{◌≡◌, ◌+◌, ◌≤◌, length};
ghost use Rattle.words.specs.Endian.{le};
ghost use Rattle.slices.specs.Over.{put_at};
ghost use Rattle.words.specs.Size.{int32};
ghost use Rattle.fields.specs.Fields as fields;
ghost use Rattle.fields.specs.Answers as answers;

use refusals::Refusal;

// A stretch of a file or a payload.
#[derive(Clone, Copy)]
pub struct Place {
    pub start: usize,
    pub length: usize,
}

// How many bytes the value of a field may have.
#[derive(Clone, Copy)]
pub enum SizeRule {
    Any,
    Exactly(u32),
    AtLeast(u32),
}

// The values of a field's answer: the ID, and the start and the length of its value; zeros on a refusal.
pub fn field_values(field: Result<(u8, Place), Refusal>) -> [u64; 3]
    ensures { result ≡ (answers.said field).values }
{
    match field {
        Ok((id, p)) => [id as u64, p.start as u64, p.length as u64],
        Err(_) => [0u64; 3],
    }
}

// Whether a rule allows so many bytes.
fn fits(rule: SizeRule, n: u32) -> bool
    ensures { result ≡ fields.fits rule n }
{
    match rule {
        SizeRule::Any => true,
        SizeRule::Exactly(k) => n == k,
        SizeRule::AtLeast(k) => k <= n,
    }
}

// A field's value, behind its five bytes.
#[tactic(auto, unfolding(crate::specs::Fields::value_at))]
fn value_at(s: &[u8], at: usize, rule: SizeRule) -> Result<(u8, Place), Refusal>
    requires { at + 5 ≤ length s.now }
    ensures { result ≡ fields.value_at rule s.now at (int32 (le 4 s.now (at + 1))) }
{
    let n = words::le::size_at(s, at + 1).ok_or(Refusal::WrongSize(at))?;
    if !fits(rule, n) {
        return Err(Refusal::WrongSize(at));
    }
    let start = at + 5;
    let length = n as usize;
    if s.len() - start < length {
        return Err(Refusal::CutShort(s.len()));
    }
    Ok((s[at], Place { start, length }))
}

// The field at a place: its ID and its value's place, or why it is refused. Whether its ID is listed, whether it came
// before, and the rule of its size are told by the caller.
#[tactic(auto, unfolding(crate::specs::Fields::field_at))]
pub fn field_at(
    s: &[u8],
    at: usize,
    listed: bool,
    repeated: bool,
    rule: SizeRule,
) -> Result<(u8, Place), Refusal>
    ensures value { result ≡ fields.field_at listed repeated rule s.now at }
    ensures result_value { answers.said result ≡ answers.said (fields.field_at listed repeated rule s.now at) }
{
    if s.len() < 5 || s.len() - 5 < at {
        return Err(Refusal::CutShort(s.len()));
    }
    if !listed {
        return Err(Refusal::UnknownField(at));
    }
    if repeated {
        return Err(Refusal::Repeated(at));
    }
    value_at(s, at, rule)
}

// Where the field of a value begins: five bytes before it.
pub fn begin(p: Place) -> usize
    ensures { result ≡ fields.begin p }
{
    if p.start < 5 {
        return 0;
    }
    p.start - 5
}

// Writes a field into `out` from a place on, as far as there is room.
pub fn put(out: &mut [u8], at: usize, id: u8, value: &[u8])
    ensures { out.new ≡ put_at at (fields.field_bytes id value.now) out.old }
{
    if at < out.len() {
        let size = words::le::bytes64(value.len() as u64);
        let head = [id, size[0], size[1], size[2], size[3]];
        slices::put(out, at, &head);
        slices::put(out, at + 5, value);
    }
}
