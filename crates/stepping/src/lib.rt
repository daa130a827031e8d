// Opening a vault block by block from its first byte to its closing block (document 01, "File after the header"): the
// start, and one step after the other.
//
// Each step is lent the part of the output behind what the others wrote. The contracts cite specs/Stepping. Refusals:
// those of the start and of a step, at which the steps end; what accepted steps handed over stays.
#![tactic(auto)]

ghost use Rattle.std.specs.Prelude.{◌≡◌, length};
ghost use Rattle.slices.specs.Over.{over};
ghost use Rattle.stepping.specs.Stepping as stepping;

use opening::{Opener, Phase};
use refusals::Refusal;

// Steps one after the other from a state, each lent the part of `out` behind what the others wrote.
fn run_steps(first: Opener, f: &[u8], out: &mut [u8]) -> Result<usize, Refusal>
    ensures value { result ≡ stepping.written_of (stepping.stepping (length f.now) f.now first (length out.old)) }
    ensures out_after { out.new ≡ over (stepping.stepping (length f.now) f.now first (length out.old)).bytes out.old }
{
    let mut o = first;
    let mut at: usize = 0;
    for _ in 0..f.len() {
        let s = opener::step(o, f, &mut out[at..]);
        let answer = s.answer;
        let next = s.next;
        let phase = next.phase;
        match answer {
            Err(r) => return Err(r),
            Ok(n) => {
                if let Phase::Ended = phase {
                    return Ok(at + n);
                }
                at += n;
                o = next;
            }
        }
    }
    Err(Refusal::CutShort(0))
}

// Opens a vault: the start, then the steps. The answer is how many bytes they handed over in all.
pub fn open_steps(f: &[u8], t: [u8; 32], out: &mut [u8]) -> Result<usize, Refusal>
    ensures value { result ≡ stepping.written_of (stepping.ran_from t f.now (length out.old)) }
    ensures out_after { out.new ≡ over (stepping.ran_from t f.now (length out.old)).bytes out.old }
{
    let s = vault::start(f, t);
    let outcome = s.outcome;
    let first = s.next;
    match outcome {
        Err(r) => return Err(r),
        Ok(()) => return run_steps(first, f, out),
    }
}
