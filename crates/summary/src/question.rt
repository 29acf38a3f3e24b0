// The question's parts: whether the time is past the count, the last entry at or before it, and the walk over the records since.
ghost use Rattle.std.specs.Prelude.{◌≡◌, false, ◌≤◌};
ghost use Rattle.summary.specs.Question.{past_count};
ghost use Rattle.summary.specs.Counted.{reply_of};
ghost use Rattle.summary.specs.Walking.{walk_of, on_reply};

use crate::{ENTRY_SIZE, SPACING, Unanswered};
use counts::{Quanta, Slot};

// Whether the count is cut or the time past it. A time that is not has 32 bits, as the count has.
pub(crate) fn is_past(trace: &[u8], time: Slot) -> bool
    ensures { (result ≡ past_count trace.now time.0) × (result ≡ false → time.0 ≤ 4_294_967_295) }
{
    if trace.len() < 4 {
        return true;
    }
    let slots = fields::word(trace, 0) as u64;
    slots < time.time()
}

// Counts on from the last entry at or before the time.
#[tactic(auto, using(crate::proofs::Walking::is_missing))]
pub(crate) fn count_on(
    trace: &[u8],
    summary: &[u8],
    row: u8,
    time: u64,
) -> Result<Quanta, Unanswered>
    requires { time ≤ 4_294_967_295 }
    ensures { reply_of result ≡ on_reply trace.now summary.now row time }
{
    let entry = time / SPACING;
    let at = ENTRY_SIZE * (entry as usize);
    if summary.len() < at + ENTRY_SIZE {
        return Err(Unanswered::NoEntry);
    }
    let before = fields::word(summary, at + 8 + 4 * (row as usize)) as u64;
    if SPACING * entry < before {
        return Err(Unanswered::NoEntry);
    }
    let place = fields::long(summary, at);
    let walked = times_named(trace, place as usize, row, time % SPACING);
    let times = walked.ok_or(Unanswered::NoEntry)?;
    Ok(Quanta::of(before + times))
}

// How many of m records from a place on name a row, if all of them lie inside the trace.
// (The place comes from the summary and may be wild.)
#[tactic(auto, using(crate::proofs::Walking::walk_met))]
fn times_named(trace: &[u8], from: usize, row: u8, m: u64) -> Option<u64>
    ensures { result ≡ walk_of trace.now from row m }
{
    let mut at = from;
    let mut times: u64 = 0;
    for _ in 0..m {
        let next = at + trace::length_inside(trace, at)?;
        if trace[at + 2..next].contains(&row) {
            times += 1;
        }
        at = next;
    }
    Some(times)
}
