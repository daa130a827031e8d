// The inner stream (document 02, Item 1): a stretch straight from the inner key, and a state of 53 bytes that carries
// over from one stretch to the next. The contracts cite crate inner_stream's specs/InnerStream and specs/State, and
// crate calls' specs/Calls. Refusals: 9, 1, 17; of a start 9, 1; of a stretch of a state 19, 1, 17.
ghost use Rattle.std.specs.Prelude.{◌≡◌, length};
ghost use Rattle.refusals.specs.Numbers as numbers;
ghost use Rattle.slices.specs.Over.{over};
ghost use Rattle.inner_stream.specs.InnerStream as inner;
ghost use Rattle.inner_stream.specs.State as stream;
ghost use Rattle.states.specs.InnerStreamState as stream_bytes;
ghost use Rattle.calls.specs.Calls as calls;
ghost use Rattle.exports.specs.Lent as lent;

use inner_stream::InnerStream;
use states::inner_stream_state;

// A stretch at a position of the inner stream, covered or uncovered over the front of `out`, and its length in `count`.
#[unsafe(no_mangle)]
pub extern "C" fn kdbx4_inner_stream(
    algorithm: u32,
    key: &[u8],
    position: u64,
    bytes: &[u8],
    out: &mut [u8],
    count: &mut usize,
) -> u8
    ensures value { result ≡ numbers.number_of (inner.applying algorithm key.now position bytes.now (length out.old)) }
    ensures out_after { out.new ≡ over (inner.applied_bytes algorithm key.now position bytes.now (length out.old)) out.old }
    ensures count_after { count.new ≡ lent.count_or (inner.applying algorithm key.now position bytes.now (length out.old)) count.old }
{
    let answer = inner_stream::apply(algorithm, key, position, bytes, out);
    match answer {
        Ok(n) => {
            *count = n;
            return 0;
        }
        Err(r) => return r.number(),
    }
}

// Starts an inner stream. A refused start gives a state that only 19 comes of.
#[unsafe(no_mangle)]
pub extern "C" fn kdbx4_inner_stream_start(algorithm: u32, key: &[u8], state: &mut [u8; 53]) -> u8
    ensures value { result ≡ numbers.number_of (stream.started algorithm key.now).outcome }
    ensures state_after { state.new ≡ stream_bytes.packed (stream.started algorithm key.now).next }
{
    let started = InnerStream::start(algorithm, key);
    let outcome = started.outcome;
    let next = started.next;
    *state = inner_stream_state::pack(next);
    refusals::number(outcome)
}

// The next stretch of an inner stream, covered or uncovered over the front of `out`, and its length in `count`.
#[unsafe(no_mangle)]
pub extern "C" fn kdbx4_inner_stream_apply(
    state: &mut [u8; 53],
    bytes: &[u8],
    out: &mut [u8],
    count: &mut usize,
) -> u8
    ensures value { result ≡ numbers.number_of (calls.streamed state.old bytes.now (length out.old)).written }
    ensures state_after { state.new ≡ calls.stream_or (calls.streamed state.old bytes.now (length out.old)) state.old }
    ensures out_after { out.new ≡ over (calls.streamed_bytes state.old bytes.now (length out.old)) out.old }
    ensures count_after { count.new ≡ lent.count_or (calls.streamed state.old bytes.now (length out.old)).written count.old }
{
    let held = *state;
    let s = inner_stream_state::unpack(held);
    let applied = s.apply(bytes, out);
    let written = applied.written;
    let next = applied.next;
    match written {
        Ok(n) => {
            *state = inner_stream_state::pack(next);
            *count = n;
            return 0;
        }
        Err(r) => return r.number(),
    }
}
