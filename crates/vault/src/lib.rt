// Opening a vault from its first byte (document 01, "File after the header"): the start of a block-by-block opening,
// and the whole opening.
//
//   outer header | SHA-256 of it | HMAC-SHA-256 of it | block | block | … | closing block
//
// `start` and `open` make the same checks up to the header's tag; a step is opener's `step`. The contracts cite
// specs/Vault. Refusals: the header's 1 to 11, 20 and 22, then 2, 12 and 13; of the whole opening also those of the
// blocks, and 17 last.
#![tactic(auto)]

ghost use Rattle.std.specs.Prelude.{◌≡◌, ◌++◌, ◌+◌, ◌-◌, ◌≤◌, length, replicate, Ok};
ghost use Rattle.refusals.specs.Limits.{file_limit};
ghost use Rattle.slices.specs.Over.{over};
ghost use Rattle.outer_header.specs.Kdbx4Header.{header};
ghost use Rattle.opening.specs.Whole as whole;
ghost use Rattle.vault.specs.Vault as kdbx4;
ghost use Rattle.vault.specs.Checked as checked;

use opening::{Keys, Phase, Started};
use outer_header::Header;
use refusals::Refusal;

// The bytes of a slice in an array of N, with zeros behind them.
fn padded<const N: usize>(s: &[u8]) -> [u8; N]
    requires { length s.now ≤ N }
    ensures { result ≡ s.now ++ replicate (N - length s.now) 0 }
{
    let mut a = [0u8; N];
    a[..s.len()].copy_from_slice(s);
    a
}

// The keys of T and an accepted header.
fn keys_of(f: &[u8], h: Header, t: [u8; 32]) -> Keys
    requires { header f.now ≡ Ok h }
    ensures { result ≡ kdbx4.keys_of t f.now h }
{
    let seed = padded(slices::part(f, h.seed.start, h.seed.length));
    let nonce = padded(slices::part(f, h.nonce.start, h.nonce.length));
    let c = h.cipher;
    vault_keys::keys_with(c, seed, nonce, t)
}

// Whether the hash behind a header of n bytes holds.
fn hash_holds(f: &[u8], n: usize) -> bool
    requires { length f.now ≤ file_limit }
    ensures { result ≡ kdbx4.hash_holds f.now n }
{
    let digest = sha256::hash(slices::part(f, 0, n)).digest;
    slices::same(slices::part(f, n, 32), &digest)
}

// Whether the tag behind it holds.
fn tag_holds(f: &[u8], n: usize, base: [u8; 64]) -> bool
    requires n_in_bounds { n + 32 ≤ length f.now }
    requires f_len_bound { length f.now ≤ file_limit }
    ensures { result ≡ kdbx4.tag_holds base f.now n }
{
    let tag = vault_keys::header_tag(base, slices::part(f, 0, n));
    slices::same(slices::part(f, n + 32, 32), &tag)
}

// The checks behind a header of n bytes: 64 bytes present, hash, tag. They give the keys and the place of the first block.
fn check_at(f: &[u8], n: usize, k: Keys) -> Result<(Keys, usize), Refusal>
    requires n_in_bounds { n ≤ length f.now }
    requires f_len_bound { length f.now ≤ file_limit }
    ensures { result ≡ checked.checked_of (kdbx4.start_at f.now n k) }
{
    if f.len() - n < 64 {
        return Err(Refusal::CutShort(0));
    }
    if hash_holds(f, n) {
        if tag_holds(f, n, k.base) {
            return Ok((k, n + 64));
        }
        return Err(Refusal::HeaderTag);
    }
    Err(Refusal::HeaderHash)
}

// The checks up to the header's tag.
fn check(f: &[u8], t: [u8; 32]) -> Result<(Keys, usize), Refusal>
    ensures { result ≡ checked.checked_of (kdbx4.start t f.now) }
{
    match outer_header::read(f) {
        Err(r) => Err(r),
        Ok(h) => {
            let k = keys_of(f, h, t);
            check_at(f, h.length, k)
        }
    }
}

// Starts a block-by-block opening: the checks up to the header's tag, and the state for the first step. A refused start
// gives a closed state.
pub fn start(f: &[u8], t: [u8; 32]) -> Started
    ensures outcome_value { result.outcome ≡ kdbx4.outcome_of (kdbx4.start t f.now) }
    ensures next_value { result.next ≡ kdbx4.state_of (kdbx4.start t f.now) }
{
    match check(f, t) {
        Ok((k, at)) => Started {
            outcome: Ok(()),
            next: opener::begin(k, at),
        },
        Err(r) => Started {
            outcome: Err(r),
            next: opener::blank(Phase::Closed),
        },
    }
}

// Opens a vault whole: its payload over the front of `out`, or a refusal and nothing written.
pub fn open(f: &[u8], t: [u8; 32], out: &mut [u8]) -> Result<usize, Refusal>
    ensures value { result ≡ whole.written_of (kdbx4.opened_in t f.now (length out.old)) }
    ensures out_after { out.new ≡ over (whole.shown_of (kdbx4.opened_in t f.now (length out.old))) out.old }
{
    let (k, at) = check(f, t)?;
    open_whole::open_blocks(k, f, at, out)
}
