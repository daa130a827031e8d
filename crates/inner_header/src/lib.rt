// The inner header of a payload (document 01, "Inner header"): reading, and its attachments one by one. Writing is
// `write`.
//
//   ID, size, value | ID, size, value | … | 00, 0 | document
//
// The contracts cite specs/InnerHeader, specs/Answers for what an answer says, and specs/Tally for what is kept of the
// fields. Values are told by their places in the payload, and nothing is copied. Fields may come in any order.
// Refusals: 1; of each field 2, 7, 6, 5, 2; 8, 9; and 8 for an attachment index past the last. Each operation walks
// over the fields once.
#![tactic(auto)]

ghost use Rattle.std.specs.Prelude.{◌≡◌, ◌<◌, length};
ghost use Rattle.inner_header.specs.InnerHeader as kdbx4;
ghost use Rattle.inner_header.specs.Answers as answers;
ghost use Rattle.inner_header.specs.Tally as tally;

use fields::{Place, SizeRule};
use refusals::Refusal;

pub mod writer;

// What an accepted inner header says: the algorithm, 2 or 3; the key's place; how many attachments there are; where the
// document starts.
#[derive(Clone, Copy)]
pub struct Inner {
    pub algorithm: u32,
    pub key: Place,
    pub attachments: usize,
    pub document: usize,
}

// The values of a reader's answer: the algorithm, the key's start and length, how many attachments there are, the
// document's start; zeros on a refusal.
pub fn header_values(header: Result<Inner, Refusal>) -> [u64; 5]
    ensures { result ≡ (answers.said_read header).values }
{
    match header {
        Ok(h) => [
            h.algorithm as u64,
            h.key.start as u64,
            h.key.length as u64,
            h.attachments as u64,
            h.document as u64,
        ],
        Err(_) => [0u64; 5],
    }
}

// The values of an attachment's answer: the flags, and the start and the length of the content; zeros on a refusal.
pub fn attachment_values(attachment: Result<(u8, Place), Refusal>) -> [u64; 3]
    ensures { result ≡ (answers.said_attachment attachment).values }
{
    match attachment {
        Ok((flags, p)) => [flags as u64, p.start as u64, p.length as u64],
        Err(_) => [0u64; 3],
    }
}

// What is kept of the fields that were met. An absent field has the start 0, where no value stands; so has the
// attachment that is asked for, before it is met.
#[derive(Clone, Copy)]
struct Tally {
    algorithm: Place,
    key: Place,
    attachments: usize,
    asked: Place,
}

// How many bytes the value of a field may have.
fn rule_of(id: u8) -> SizeRule
    ensures { result ≡ kdbx4.rule_of id }
{
    if id == 0 {
        return SizeRule::Exactly(0);
    }
    if id == 1 {
        return SizeRule::Exactly(4);
    }
    if id == 2 {
        return SizeRule::Any;
    }
    SizeRule::AtLeast(1)
}

// Whether a field that may not recur came before.
fn is_repeated(t: Tally, id: u8) -> bool
    ensures { result ≡ kdbx4.repeated t.algorithm t.key id }
{
    if id == 1 {
        return t.algorithm.start != 0;
    }
    if id == 2 {
        return t.key.start != 0;
    }
    false
}

// The field at a place, where the fields before it are known.
fn field_of(t: Tally, s: &[u8], at: usize) -> Result<(u8, Place), Refusal>
    ensures { result ≡ kdbx4.field_of t.algorithm t.key s.now at }
{
    let id = words::byte_at(s, at);
    fields::field_at(s, at, id <= 3, is_repeated(t, id), rule_of(id))
}

// What is kept, with one field more. The attachment of the index is kept when it is met.
fn put(t: Tally, index: usize, id: u8, p: Place) -> Tally
    requires { t.attachments < 0xFFFF_FFFF_FFFF_FFFF }
    ensures { result ≡ tally.put_tally t index id p }
{
    let mut u = t;
    if id == 1 {
        u.algorithm = p;
        return u;
    }
    if id == 2 {
        u.key = p;
        return u;
    }
    if id == 3 {
        u.attachments = t.attachments + 1;
        if t.attachments == index {
            u.asked = p;
            return u;
        }
        return u;
    }
    u
}

// All fields up to the end field, with the attachment of the index; and where the document starts.
fn walk(s: &[u8], index: usize) -> Result<(Tally, usize), Refusal>
    ensures { result ≡ tally.tallied index (kdbx4.walk (length s.now) kdbx4.no_fields s.now 0) }
{
    let nowhere = Place {
        start: 0,
        length: 0,
    };
    let mut t = Tally {
        algorithm: nowhere,
        key: nowhere,
        attachments: 0,
        asked: nowhere,
    };
    let mut at: usize = 0;
    for _ in 0..s.len() {
        let (id, p) = field_of(t, s, at)?;
        at = p.start + p.length;
        if id == 0 {
            return Ok((t, at));
        }
        t = put(t, index, id, p);
    }
    Err(Refusal::CutShort(s.len()))
}

// Whether the algorithm is listed.
pub(crate) fn is_algorithm(n: u32) -> bool
    ensures { result ≡ kdbx4.algorithm_listed n }
{
    if n == 2 {
        return true;
    }
    n == 3
}

// Where the end field begins, behind which the document starts at `end`.
fn end_field(end: usize) -> usize
    ensures { result ≡ kdbx4.end_field end }
{
    if end < 5 {
        return 0;
    }
    end - 5
}

// Algorithm and key present, then the algorithm listed.
fn fault(s: &[u8], t: Tally, end: usize) -> Result<(), Refusal>
    ensures { result ≡ kdbx4.fault s.now t.algorithm t.key end }
{
    if t.algorithm.start == 0 {
        return Err(Refusal::Absent(end_field(end)));
    }
    if t.key.start == 0 {
        return Err(Refusal::Absent(end_field(end)));
    }
    if is_algorithm(words::le::u32_at(s, t.algorithm.start)) {
        return Ok(());
    }
    let p = t.algorithm;
    Err(Refusal::Unlisted(fields::begin(p)))
}

// All the reader's checks, with the attachment of the index.
fn judge(s: &[u8], index: usize) -> Result<(Tally, usize), Refusal>
    ensures { result ≡ tally.tallied index (kdbx4.opened s.now) }
{
    if !refusals::limits::payload_fits(s.len()) {
        return Err(Refusal::TooLong);
    }
    let (t, end) = walk(s, index)?;
    match fault(s, t, end) {
        Err(r) => Err(r),
        Ok(()) => Ok((t, end)),
    }
}

// Reads an inner header.
pub fn read_header(payload: &[u8]) -> Result<Inner, Refusal>
    ensures value { result ≡ kdbx4.inner payload.now }
    ensures result_value { answers.said_read result ≡ answers.said_read (kdbx4.inner payload.now) }
{
    let (t, document) = judge(payload, 0)?;
    Ok(Inner {
        algorithm: words::le::u32_at(payload, t.algorithm.start),
        key: t.key,
        attachments: t.attachments,
        document,
    })
}

// An attachment, counted from 0: its flags, and the place of its content, without the flags byte.
pub fn find_attachment(payload: &[u8], index: usize) -> Result<(u8, Place), Refusal>
    ensures value { result ≡ kdbx4.attachment payload.now index }
    ensures result_value { answers.said_attachment result ≡ answers.said_attachment (kdbx4.attachment payload.now index) }
{
    let (t, end) = judge(payload, index)?;
    if t.attachments <= index {
        return Err(Refusal::Absent(end_field(end)));
    }
    let start = t.asked.start + 1;
    let length = t.asked.length - 1;
    let flags = words::byte_at(payload, t.asked.start);
    Ok((flags, Place { start, length }))
}
