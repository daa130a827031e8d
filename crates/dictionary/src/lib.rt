// Variant dictionaries (document 01, "Header"): a version of two bytes, items, and a 0 byte that is the last.
//
//   00 01 | type, name size, name, value size, value | type, … | 00
//
// The contracts cite specs/Dictionary, and specs/Answers for what an answer says. An item is told by its places in the
// dictionary, and nothing is copied. Refusals: 10 for any fault of the form, 6 for a sound item whose name an earlier
// item has; the first met from the front is given, with the place of its item, or 0 where it is no item's. Repeated
// names are searched for in batches (repeats): with a table of 64 places on the stack, and where there are more items
// with one of 4,096 (16 KiB).
#![tactic(auto)]

ghost use Rattle.std.specs.Prelude.{◌≡◌, ◌+◌, ◌≤◌, length};
ghost use Rattle.words.specs.Endian.{le};
ghost use Rattle.words.specs.Size.{int32};
ghost use Rattle.dictionary.specs.Dictionary as dictionary;
ghost use Rattle.dictionary.specs.Answers as answers;
ghost use Rattle.dictionary.specs.Lookup.{Looked};

use refusals::Refusal;
use repeats::Batch;

mod repeats;
mod table;

// An item: its type, and the places of its name and value.
#[derive(Clone, Copy)]
pub struct Item {
    pub kind: u8,
    pub name: usize,
    pub name_len: usize,
    pub value: usize,
    pub value_len: usize,
}

// What is wrong with a dictionary: its form, or that a name is repeated; with the place of the item at fault, 0 where it
// is no item's.
#[derive(Clone, Copy)]
pub enum Fault {
    Broken(usize),
    Repeated(usize),
}

// The value of a name: its type, and its place.
#[derive(Clone, Copy)]
pub struct Value {
    pub kind: u8,
    pub start: usize,
    pub length: usize,
}

// The number of what stands at a place: 0, or 10.
pub fn entry_number(entry: Result<Option<Item>, usize>) -> u8
    ensures { result ≡ (answers.said_entry entry).number }
{
    match entry {
        Ok(Some(_)) => 0,
        Ok(None) => 0,
        Err(at) => Refusal::BrokenDictionary(at).number(),
    }
}

// The place of the fault of what stands at a place: 0 where there is none.
pub fn entry_place(entry: Result<Option<Item>, usize>) -> usize
    ensures { result ≡ (answers.said_entry entry).place }
{
    match entry {
        Ok(Some(_)) => 0,
        Ok(None) => 0,
        Err(at) => at,
    }
}

// The values of what stands at a place: 1, the type, start and length of the name and of the value; zeros at the last
// byte, and on a refusal.
pub fn entry_values(entry: Result<Option<Item>, usize>) -> [u64; 6]
    ensures { result ≡ (answers.said_entry entry).values }
{
    match entry {
        Ok(Some(i)) => [
            1,
            i.kind as u64,
            i.name as u64,
            i.name_len as u64,
            i.value as u64,
            i.value_len as u64,
        ],
        Ok(None) => [0u64; 6],
        Err(_) => [0u64; 6],
    }
}

// The number of a check's answer: 0, 10 or 6.
pub fn verdict_number(verdict: Result<(), Fault>) -> u8
    ensures { result ≡ (answers.said_verdict verdict).number }
{
    match verdict {
        Ok(()) => 0,
        Err(Fault::Broken(at)) => Refusal::BrokenDictionary(at).number(),
        Err(Fault::Repeated(at)) => Refusal::Repeated(at).number(),
    }
}

// The place of the fault of a check's answer: 0 where there is none.
pub fn verdict_place(verdict: Result<(), Fault>) -> usize
    ensures { result ≡ (answers.said_verdict verdict).place }
{
    match verdict {
        Ok(()) => 0,
        Err(Fault::Broken(at)) => at,
        Err(Fault::Repeated(at)) => at,
    }
}

// The values of what a name is found as: 1, the type, the value's start and length; zeros where there is no such name,
// and on a refusal.
pub fn found_values(found: Result<Option<Value>, Refusal>) -> [u64; 4]
    ensures { result ≡ (answers.said_found found).values }
{
    match found {
        Ok(Some(v)) => [1, v.kind as u64, v.start as u64, v.length as u64],
        Ok(None) => [0u64; 4],
        Err(_) => [0u64; 4],
    }
}

// Whether a value of a type may have so many bytes.
fn size_fits(kind: u8, n: usize) -> bool
    ensures { result ≡ dictionary.size_fits_type kind n }
{
    if kind == 0x04 {
        return n == 4;
    }
    if kind == 0x05 {
        return n == 8;
    }
    if kind == 0x08 {
        return n == 1;
    }
    if kind == 0x0C {
        return n == 4;
    }
    if kind == 0x0D {
        return n == 8;
    }
    if kind == 0x18 {
        return true;
    }
    kind == 0x42
}

// The item at a place whose name, of n bytes, and value size are present.
#[tactic(auto, unfolding(crate::specs::Dictionary::value_at))]
fn value_at(s: &[u8], at: usize, n: usize) -> Result<Option<Item>, usize>
    requires { at + 5 + n + 4 ≤ length s.now }
    ensures { result ≡ dictionary.value_at s.now at n (int32 (le 4 s.now (at + 5 + n))) }
{
    let name = at + 5;
    let value = name + n + 4;
    let value_len = words::le::size_at(s, name + n).ok_or(at)? as usize;
    if s.len() - value < value_len {
        return Err(at);
    }
    if !size_fits(s[at], value_len) {
        return Err(at);
    }
    Ok(Some(Item {
        kind: s[at],
        name,
        name_len: n,
        value,
        value_len,
    }))
}

// The item at a place, none at the last byte; or the place of the item at fault, 0 where it is no item's.
#[tactic(auto, unfolding(crate::specs::Dictionary::entry_at, crate::specs::Dictionary::name_at))]
pub fn entry_at(s: &[u8], at: usize) -> Result<Option<Item>, usize>
    ensures value { result ≡ dictionary.entry_at s.now at }
    ensures result_value { answers.said_entry result ≡ answers.said_entry (dictionary.entry_at s.now at) }
{
    if s.len() <= at {
        return Err(0);
    }
    if s[at] == 0 {
        if s.len() - at == 1 {
            return Ok(None);
        }
        return Err(0);
    }
    if s.len() - at < 5 {
        return Err(at);
    }
    let n = words::le::size_at(s, at + 1).ok_or(at)? as usize;
    if s.len() - (at + 5) < n + 4 {
        return Err(at);
    }
    value_at(s, at, n)
}

// Whether a dictionary is sound, or its first fault. Few items fit a small table; many are judged in batches.
pub fn check(s: &[u8]) -> Result<(), Fault>
    ensures value { result ≡ dictionary.verdict s.now }
    ensures result_value { answers.said_verdict result ≡ answers.said_verdict (dictionary.verdict s.now) }
{
    if s.len() < 3 {
        return Err(Fault::Broken(0));
    }
    if s[1] != 1 {
        return Err(Fault::Broken(0));
    }
    let mut t = [0u32; 64];
    match repeats::fill(s, 2, s.len(), &mut t) {
        Batch::Done(o) => return o,
        Batch::Full { held: _, next: _ } => return repeats::judge(s),
    }
}

// The item of a name in a dictionary that `check` accepts, for a caller that has checked it and looks up several names.
// Nothing is judged here: of any other dictionary it answers the first item of the name that stands before a broken
// one, or absent. `find` refuses such a dictionary.
pub fn search_sound(s: &[u8], name: &[u8]) -> Result<Option<Value>, Refusal>
    ensures value { result ≡ dictionary.search_from (length s.now) s.now 2 name.now }
    ensures result_value { answers.said_found result ≡ answers.said_found (dictionary.search_from (length s.now) s.now 2 name.now) }
{
    let mut at: usize = 2;
    for _ in 0..s.len() {
        match entry_at(s, at) {
            Ok(None) => return Ok(None),
            Err(_) => return Ok(None),
            Ok(Some(i)) => {
                if slices::same(slices::part(s, i.name, i.name_len), name) {
                    return Ok(Some(Value {
                        kind: i.kind,
                        start: i.value,
                        length: i.value_len,
                    }));
                }
                at = i.value + i.value_len;
            }
        }
    }
    Ok(None)
}

// Where the value of a name stands, that there is none, or why the dictionary is refused.
pub fn find(s: &[u8], name: &[u8]) -> Result<Option<Value>, Refusal>
    ensures value { result ≡ dictionary.find s.now name.now }
    ensures result_value { answers.said_found result ≡ answers.said_found (dictionary.find s.now name.now) }
{
    match check(s) {
        Ok(()) => return search_sound(s, name),
        Err(Fault::Broken(at)) => return Err(Refusal::BrokenDictionary(at)),
        Err(Fault::Repeated(at)) => return Err(Refusal::Repeated(at)),
    }
}

// The value of a name, shown as that stretch of the dictionary itself; where there is none, nothing is shown. What it
// is found as is told beside it: document 01's number and the place of a refusal, whether the name is there, and the
// value's type. So an empty value, a name that is absent and a refusal, of which no byte is shown, differ.
pub fn lookup<'d>(
    d: &'d [u8],
    name: &[u8],
    number: &mut u8,
    place: &mut usize,
    found: &mut bool,
    kind: &mut u8,
) -> &'d [u8]
    ensures { Looked d.entry name.entry result number.new place.new found.new kind.new }
{
    *number = 0;
    *place = 0;
    *found = false;
    *kind = 0;
    match find(d, name) {
        Ok(Some(v)) => {
            *found = true;
            *kind = v.kind;
            return slices::stretch(d, v.start, v.length);
        }
        Ok(None) => return slices::stretch(d, 0, 0),
        Err(r) => {
            *number = r.number();
            *place = r.place();
            return slices::stretch(d, 0, 0);
        }
    }
}
