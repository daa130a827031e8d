// Writing an inner header and the document behind it (document 01, "Inner header").
//
//   01, 4, algorithm | 02, size, key | the run of attachments | 00, 0 | document
//
// The contracts cite specs/Writer. Refusals: 9; of each field of the run 2, 7, 5, 2; 1; 17. Nothing is written before
// all are settled.
ghost use Rattle.std.specs.Prelude.{◌≡◌, ◌+◌, ◌≤◌, ◌<◌, length};
ghost use Rattle.slices.specs.Over.{over};
ghost use Rattle.inner_header.specs.Writer as kdbx4;

use crate::is_algorithm;
use fields::SizeRule;
use refusals::Refusal;

// Whether a run is fields of ID 3 with a flags byte at least, or its first fault.
fn check_run(run: &[u8]) -> Result<(), Refusal>
    ensures { result ≡ kdbx4.verdict (kdbx4.run run.now) }
{
    let mut at: usize = 0;
    for _ in 0..run.len() {
        if run.len() <= at {
            return Ok(());
        }
        match fields::field_at(
            run,
            at,
            words::byte_at(run, at) == 3,
            false,
            SizeRule::AtLeast(1),
        ) {
            Err(r) => return Err(r.unplaced()),
            Ok((_, p)) => {
                at = p.start + p.length;
            }
        }
    }
    Ok(())
}

// Whether a payload of so many parts' bytes is within its limit and has room.
fn size(key: usize, run: usize, document: usize, room: usize) -> Result<usize, Refusal>
    ensures { result ≡ kdbx4.sized (kdbx4.payload_length key run document) room }
{
    if refusals::limits::payload_fits(key) {
        if refusals::limits::payload_fits(run) {
            if refusals::limits::payload_fits(document) {
                let n = 19 + key + run + document;
                if refusals::limits::payload_fits(n) {
                    if n <= room {
                        return Ok(n);
                    }
                    return Err(Refusal::NoRoom);
                }
                return Err(Refusal::TooLong);
            }
            return Err(Refusal::TooLong);
        }
        return Err(Refusal::TooLong);
    }
    Err(Refusal::TooLong)
}

// All the writer's checks.
fn plan(
    algorithm: u32,
    key: usize,
    run: &[u8],
    document: usize,
    room: usize,
) -> Result<usize, Refusal>
    ensures { result ≡ kdbx4.planned algorithm key run.now document room }
{
    if is_algorithm(algorithm) {
        match check_run(run) {
            Err(r) => return Err(r),
            Ok(()) => return size(key, run.len(), document, room),
        }
    }
    Err(Refusal::Unlisted(0))
}

// Lays a payload over the front of the lent output.
fn lay(algorithm: u32, key: &[u8], run: &[u8], document: &[u8], out: &mut [u8])
    requires { kdbx4.payload_length (length key.now) (length run.now) (length document.now) ≤ length out.old }
    ensures { out.new ≡ over (kdbx4.payload_bytes algorithm key.now run.now document.now) out.old }
{
    let number = words::le::bytes32(algorithm);
    let at = 14 + key.len();
    let end = [0u8; 5];
    fields::put(out, 0, 1, &number);
    fields::put(out, 9, 2, key);
    slices::put(out, at, run);
    slices::put(out, at + run.len(), &end);
    slices::put(out, at + run.len() + 5, document);
}

// Writes an inner header of an algorithm, a key and a run of attachments, and the document behind it.
pub fn write(
    algorithm: u32,
    key: &[u8],
    run: &[u8],
    document: &[u8],
    out: &mut [u8],
) -> Result<usize, Refusal>
    ensures value { result ≡ kdbx4.writing algorithm key.now run.now document.now (length out.old) }
    ensures out_after { out.new ≡ over (kdbx4.written_bytes algorithm key.now run.now document.now (length out.old)) out.old }
{
    match plan(algorithm, key.len(), run, document.len(), out.len()) {
        Err(r) => return Err(r),
        Ok(n) => {
            lay(algorithm, key, run, document, out);
            return Ok(n);
        }
    }
}
