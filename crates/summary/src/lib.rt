// The summary of a trace: the question for a row's quanta before a time. An entry for each multiple of 1,024 slots says where the
// next record begins and how often each row was named before, so that a question reads one entry and at most 1,023 records.
#![tactic(auto)]

mod question;

ghost use Rattle.std.specs.Prelude.{◌≡◌};
ghost use Rattle.summary.specs.Question.{reply_to};
ghost use Rattle.summary.specs.Counted.{reply_of};

use counts::{Quanta, Slot};

// Why the question has no answer.
#[derive(Clone, Copy, PartialEq, Eq)]
pub enum Unanswered {
    NoRow,
    PastCount,
    NoEntry,
}

// Why no summary is built, of those who build one.
#[derive(Clone, Copy, PartialEq, Eq)]
pub enum Unbuilt {
    NotWellFormed,
    NoRoom,
}

// An entry stands for each multiple of so many slots.
const SPACING: u64 = 1_024;

// So many bytes has an entry.
const ENTRY_SIZE: usize = 136;

// The quanta of a row before a time: those of the last entry at or before it, and one for each record since that names the row.
#[tactic(auto, using(crate::proofs::Walking::question_met))]
pub fn quanta_before(
    n: u8,
    trace: &[u8],
    summary: &[u8],
    row: u8,
    time: Slot,
) -> Result<Quanta, Unanswered>
    ensures { reply_of result ≡ reply_to n trace.now summary.now row time.0 }
{
    if n.min(32) <= row {
        return Err(Unanswered::NoRow);
    }
    if question::is_past(trace, time) {
        return Err(Unanswered::PastCount);
    }
    question::count_on(trace, summary, row, time.time())
}
