// Opening a vault by its credentials, as the programs do: from the vault's bytes, the password and the key file to the
// document, block by block, with the share of rounds that is done on standard error.
//
//   composite key | outer header | key T | start and steps | inner header | document
//
// The payload stands over the front of the lent output, and the answer tells where its document is. The contracts cite
// specs/Unlocking, and specs/Answers for what an answer says. Refusals, in order: 1 for an input over a PC program's
// limit; those of the composite key (18); of the outer header; of the key (17 for fewer words lent than `words_needed`
// tells); of the start and the steps; of the inner header. What accepted steps wrote stays. Of the lent words, those
// that Argon2 used are zeros; all others stay.
#![tactic(auto)]

ghost use Rattle.std.specs.Prelude.{◌≡◌, length, Ok};
ghost use Rattle.slices.specs.Over.{over};
ghost use Rattle.keys.specs.State as credentials;
ghost use Rattle.outer_header.specs.Kdbx4Header.{header};
ghost use Rattle.inner_header.specs.InnerHeader as kdbx4;
ghost use Rattle.unlocking.specs.Unlocking as unlocking;
ghost use Rattle.unlocking.specs.Answers as answers;

use outer_header::Header;
use refusals::Refusal;
use refusals::limits::PROGRAM_LIMIT;

pub mod input;
mod key;
pub mod report;
mod rounds;
pub mod stack;

// Where the document stands in the output, or why there is none: a refusal of the inner header has its place in the
// payload, any other in the file.
#[derive(Clone, Copy)]
pub enum Unlocked {
    Document(usize, usize),
    Refused(Refusal),
    PayloadRefused(Refusal),
}

impl Unlocked {
    // The number of the answer: 0 is success.
    pub fn number(self) -> u8
        ensures { result ≡ (answers.said self).number }
    {
        match self {
            Unlocked::Document(_, _) => 0,
            Unlocked::Refused(r) => r.number(),
            Unlocked::PayloadRefused(r) => r.number(),
        }
    }

    // The place of a refusal, in the payload or in the file: 0 on success.
    pub fn place(self) -> usize
        ensures { result ≡ (answers.said self).place }
    {
        match self {
            Unlocked::Document(_, _) => 0,
            Unlocked::Refused(r) => r.place(),
            Unlocked::PayloadRefused(r) => r.place(),
        }
    }

    // Where the document starts and ends in the output: zeros on a refusal.
    pub fn values(self) -> [u64; 2]
        ensures { result ≡ (answers.said self).values }
    {
        match self {
            Unlocked::Document(start, end) => [start as u64, end as u64],
            Unlocked::Refused(_) => [0u64; 2],
            Unlocked::PayloadRefused(_) => [0u64; 2],
        }
    }
}

// The document's place in a payload.
fn find_document(payload: &[u8]) -> Unlocked
    ensures { result ≡ unlocking.document_of (kdbx4.inner payload.now) (length payload.now) }
{
    match inner_header::read_header(payload) {
        Err(r) => return Unlocked::PayloadRefused(r),
        Ok(i) => return Unlocked::Document(i.document, payload.len()),
    }
}

// Opens a vault by T, where that is not refused.
fn open_under(f: &[u8], outcome: Result<(), Refusal>, t: [u8; 32], out: &mut [u8]) -> Unlocked
    ensures value { result ≡ (unlocking.opening_under outcome t f.now (length out.old)).answer }
    ensures out_after { out.new ≡ over (unlocking.opening_under outcome t f.now (length out.old)).bytes out.old }
{
    match outcome {
        Err(r) => return Unlocked::Refused(r),
        Ok(()) => {
            match stepping::open_steps(f, t, out) {
                Err(r) => return Unlocked::Refused(r),
                Ok(n) => return find_document(slices::part(out, 0, n)),
            }
        }
    }
}

// Opens a vault whose header is read, by its composite key.
fn open_with(
    rt: &impl Eprint,
    f: &[u8],
    h: Header,
    composite: [u8; 32],
    out: &mut [u8],
    memory: &mut [u64],
) -> Unlocked
    requires { header f.now ≡ Ok h }
    ensures value { result ≡ (unlocking.opening_with h.kdf composite f.now (length out.old) memory.old).answer }
    ensures out_after { out.new ≡ over (unlocking.opening_with h.kdf composite f.now (length out.old) memory.old).bytes out.old }
    ensures memory_after { memory.new ≡ (unlocking.opening_with h.kdf composite f.now (length out.old) memory.old).memory }
{
    let t = key::key_of(rt, f, h, composite, memory);
    let outcome = t.outcome;
    let key = t.key;
    open_under(f, outcome, key, out)
}

// Opens a vault by its composite key.
fn open_by(
    rt: &impl Eprint,
    f: &[u8],
    composite: [u8; 32],
    out: &mut [u8],
    memory: &mut [u64],
) -> Unlocked
    ensures value { result ≡ (unlocking.opening_by (header f.now) composite f.now (length out.old) memory.old).answer }
    ensures out_after { out.new ≡ over (unlocking.opening_by (header f.now) composite f.now (length out.old) memory.old).bytes out.old }
    ensures memory_after { memory.new ≡ (unlocking.opening_by (header f.now) composite f.now (length out.old) memory.old).memory }
{
    match outer_header::read(f) {
        Err(r) => return Unlocked::Refused(r),
        Ok(h) => return open_with(rt, f, h, composite, out, memory),
    }
}

// Opens a vault by what is given of password and key file.
fn open_as(
    rt: &impl Eprint,
    f: &[u8],
    password: Option<&[u8]>,
    key_file: Option<&[u8]>,
    out: &mut [u8],
    memory: &mut [u64],
) -> Unlocked
    ensures value { result ≡ (unlocking.opening_as (credentials.credential password.entry) (credentials.credential key_file.entry) f.now (length out.old) memory.old).answer }
    ensures out_after { out.new ≡ over (unlocking.opening_as (credentials.credential password.entry) (credentials.credential key_file.entry) f.now (length out.old) memory.old).bytes out.old }
    ensures memory_after { memory.new ≡ (unlocking.opening_as (credentials.credential password.entry) (credentials.credential key_file.entry) f.now (length out.old) memory.old).memory }
{
    match keys::composite(password, key_file, None) {
        Err(r) => return Unlocked::Refused(r),
        Ok(key) => return open_by(rt, f, key, out, memory),
    }
}

// The same, with every input within a PC program's limit.
pub fn unlock(
    rt: &impl Eprint,
    f: &[u8],
    password: Option<&[u8]>,
    key_file: Option<&[u8]>,
    out: &mut [u8],
    memory: &mut [u64],
) -> Unlocked
    ensures value { result ≡ (unlocking.unlocked (credentials.credential password.entry) (credentials.credential key_file.entry) f.now (length out.old) memory.old).answer }
    ensures out_after { out.new ≡ over (unlocking.unlocked (credentials.credential password.entry) (credentials.credential key_file.entry) f.now (length out.old) memory.old).bytes out.old }
    ensures memory_after { memory.new ≡ (unlocking.unlocked (credentials.credential password.entry) (credentials.credential key_file.entry) f.now (length out.old) memory.old).memory }
    ensures result_value { answers.said result ≡ answers.said (unlocking.unlocked (credentials.credential password.entry) (credentials.credential key_file.entry) f.now (length out.old) memory.old).answer }
{
    if !keys::is_within(Some(f), PROGRAM_LIMIT) {
        return Unlocked::Refused(Refusal::TooLong);
    }
    if !keys::is_within(password, PROGRAM_LIMIT) {
        return Unlocked::Refused(Refusal::TooLong);
    }
    if !keys::is_within(key_file, PROGRAM_LIMIT) {
        return Unlocked::Refused(Refusal::TooLong);
    }
    open_as(rt, f, password, key_file, out, memory)
}

// How many words of memory the key of a vault needs: none where its header is refused.
pub fn words_needed(f: &[u8]) -> usize
    ensures { result ≡ unlocking.words_needed (header f.now) }
{
    match outer_header::read(f) {
        Err(_) => return 0,
        Ok(h) => return key::words_of(f, h),
    }
}
