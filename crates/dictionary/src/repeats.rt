// The search for repeated names: the items in batches, each batch in a table that every later item is looked up in.
//
// A dictionary of n items takes n / 4096 passes, each from a batch to the end with a search by halving for every item.
// 16 MiB of the smallest items, some 1,400,000, take 1.5·10^11 instructions. The contracts cite specs/Repeats.
ghost use Rattle.std.specs.Prelude.{◌≡◌, [], ◌≤◌, ◌<◌, length};
ghost use Rattle.dictionary.specs.Order as order;
ghost use Rattle.dictionary.specs.Repeats as repeats;

use crate::{Fault, entry_at, table};

// What a batch comes to: the judgement of all items from its start on, or how many are in the table and where the rest
// begins.
#[derive(Clone, Copy)]
pub enum Batch {
    Done(Result<(), Fault>),
    Full { held: usize, next: usize },
}

// Enters the items from a place on into a table, until it is full or the place too far behind its start.
pub(crate) fn fill(s: &[u8], from: usize, stop: usize, t: &mut [u32]) -> Batch
    requires t_nonzero { 0 < length t.old }
    requires from_in_bounds { from ≤ length s.now }
    ensures { repeats.Filled s.now from stop t.new result }
{
    let mut at = from;
    let mut n: usize = 0;
    for _ in 0..s.len() {
        match entry_at(s, at) {
            Ok(None) => return Batch::Done(Ok(())),
            Err(b) => return Batch::Done(Err(Fault::Broken(b))),
            Ok(Some(i)) => {
                if stop <= at {
                    return Batch::Done(Err(Fault::Repeated(stop)));
                }
                if n == t.len() {
                    return Batch::Full { held: n, next: at };
                }
                let place = at - from;
                if 0xFFFF_FFFF < place {
                    return Batch::Full { held: n, next: at };
                }
                if table::add(s, from, t, n, place as u32) {
                    return Batch::Done(Err(Fault::Repeated(at)));
                }
                n += 1;
                at = i.value + i.value_len;
            }
        }
    }
    Batch::Done(Err(Fault::Broken(0)))
}

// The first item from a place on, and before `stop`, whose name is in a table of n; `stop` where there is none.
fn met(s: &[u8], base: usize, t: &[u32], n: usize, from: usize, stop: usize) -> usize
    requires n_in_bounds { n ≤ length t.now }
    requires base_in_bounds { base ≤ length s.now }
    requires rising { order.Rising (order.held s.now base n t.now) }
    ensures { result ≡ repeats.met stop (length s.now) s.now
        (order.held s.now base n t.now) from }
{
    let mut at = from;
    for _ in 0..s.len() {
        match entry_at(s, at) {
            Ok(None) => return stop,
            Err(_) => return stop,
            Ok(Some(i)) => {
                if stop <= at {
                    return stop;
                }
                match table::locate(s, base, t, n, at) {
                    table::Spot::Held => return at,
                    table::Spot::Free(_) => at = i.value + i.value_len,
                }
            }
        }
    }
    stop
}

// The judgement of all items, batch after batch.
pub(crate) fn judge(s: &[u8]) -> Result<(), Fault>
    requires { 2 ≤ length s.now }
    ensures { result ≡ repeats.judge (length s.now) (length s.now) s.now [] 2 }
{
    let mut t = [0u32; 4096];
    let mut at: usize = 2;
    let mut stop = s.len();
    for _ in 0..s.len() {
        match fill(s, at, stop, &mut t) {
            Batch::Done(o) => return o,
            Batch::Full { held, next } => {
                stop = met(s, at, &t, held, next, stop);
                at = next;
            }
        }
    }
    Err(Fault::Broken(0))
}
