// The trace check: from the bytes of a table and of a trace to what 01 says of them. One pass over the trace, with constant memory.
#![tactic(auto)]

mod giving;
mod record;

ghost use Rattle.std.specs.Prelude.{◌≡◌};
ghost use Rattle.table.specs.Reply.{fault_number};
ghost use Rattle.trace.specs.Said.{bare};
ghost use Rattle.checker.specs.Answer.{shape_said, said_by, said_of};
ghost use Rattle.checker.specs.Check.{trace_said, check_of};
ghost use Rattle.checker.specs.Walking.{CanCheck};

use counts::Slot;
use giving::Walk;
use table::{Fault, Table};
use trace::Misshape;

// What is found first: a fault of the table, or what stands in the trace.
#[derive(Clone, Copy, PartialEq, Eq)]
pub enum Finding {
    Table(Fault),
    Cut,
    TooManyCores,
    TooManyRows,
    BadRow,
    Early { row: u8, slot: Slot },
    Late { row: u8, time: Slot },
    Extra,
    TooLong,
}

// What the check answers: the trace passes, or what is found first.
pub type Answer = Result<(), Finding>;

impl From<Fault> for Finding {
    ghost from_gives = { λ fault finding. said_by finding ≡ bare (fault_number fault) };

    fn from(fault: Fault) -> Finding {
        Finding::Table(fault)
    }
}

impl From<Misshape> for Finding {
    ghost from_gives = { λ misshape finding. said_by finding ≡ bare (shape_said misshape) };

    fn from(misshape: Misshape) -> Finding {
        match misshape {
            Misshape::Cut => Finding::Cut,
            Misshape::TooManyCores => Finding::TooManyCores,
            Misshape::TooManyRows => Finding::TooManyRows,
            Misshape::BadRow => Finding::BadRow,
        }
    }
}

// The most slots that a trace may have, whatever the time limit is: so the slots of a check have 32 bits, as their count has.
const SLOT_LIMIT: u32 = 1_000_000_000;

// Judges the table, then the trace.
pub fn check(table: &[u8], trace: &[u8]) -> Answer
    ensures { said_of result ≡ check_of table.now trace.now }
{
    let table = table::read(table)?;
    check_trace(&table, trace)
}

// The number of an answer.
// (A number, since programs and C answer 01's.)
pub fn number(answer: Answer) -> u8
    ensures { result ≡ (said_of answer).number }
{
    let Err(finding) = answer else {
        return 0;
    };
    match finding {
        Finding::Table(fault) => fault.number(),
        Finding::Cut => 40,
        Finding::TooManyCores => 41,
        Finding::TooManyRows => 42,
        Finding::BadRow => 43,
        Finding::Early { .. } => 44,
        Finding::Late { .. } => 45,
        Finding::Extra => 46,
        Finding::TooLong => 47,
    }
}

// Judges a trace from the front, record after record.
fn check_trace(table: &Table, trace: &[u8]) -> Answer
    requires { CanCheck table.now }
    ensures { said_of result ≡ trace_said table.now trace.now }
{
    if trace.len() < 4 {
        return Err(Finding::Cut);
    }
    let slots = fields::word(trace, 0);
    if SLOT_LIMIT < slots {
        return Err(Finding::TooLong);
    }
    let mut walk = Walk::begin(table);
    let mut at: usize = 4;
    for slot in 0..slots {
        at = record::judge(table, trace, at, &mut walk, Slot::at(slot as u64))?;
    }
    if at < trace.len() {
        return Err(Finding::Extra);
    }
    Ok(())
}
