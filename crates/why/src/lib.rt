// Why a row waits, in the slot about to run (02, Two): asked of a state, a number of free cores and a row. Nothing is changed by asking.
#![tactic(auto)]

mod next;
mod order;

ghost use Rattle.std.specs.Prelude.{◌≡◌, ◌≤◌, unwrap_or};
ghost use Rattle.facts.specs.First.{Lowest};
ghost use Rattle.trace.specs.Record.{marked};
ghost use Rattle.dispatcher.specs.Slot.{picks_in};
ghost use Rattle.dispatcher.specs.Favoured.{favoured_marks};
ghost use Rattle.dispatcher.specs.Usable.{UsableState};
ghost use Rattle.why.specs.Answer.{told_of};
ghost use Rattle.why.specs.Why.{reason_of, why_of};
ghost use Rattle.why.specs.Asked.{Asked, dropped_from};

use counts::Slot;
use dispatcher::State;
use next::Next;

// The rule of PD2's order that puts one row ahead of another, with its place in the paper's list.
#[derive(Clone, Copy, PartialEq, Eq)]
pub enum Rule {
    Deadline = 1,
    Bit = 2,
    GroupDeadline = 3,
    RowNumber = 4,
    RanBefore = 5,
}

// One of the four reasons.
#[derive(Clone, Copy, PartialEq, Eq)]
pub enum Reason {
    Picked,
    NotReady { until: Slot },
    NoCoreFree,
    PassedOver { by: u8, rule: Rule },
}

// Why no reason is given, with the paper's number.
#[derive(Clone, Copy, PartialEq, Eq)]
pub enum Refusal {
    Broken = 30,
    Stopped = 31,
    AtLimit = 32,
    TooManyCores = 33,
    NoSuchRow = 36,
}

pub type Answer = Result<Reason, Refusal>;

// What an answer says: the paper's number, the reason and the rule by their places in its lists, and the slot and the row that it names.
// Numbers, since programs write them.
#[derive(Clone, Copy, PartialEq, Eq, Default)]
pub struct Told {
    pub number: u8,
    pub reason: u8,
    pub slot: u64,
    pub row: u8,
    pub rule: u8,
}

impl Told {
    // Each part that an answer does not name is 0.
    pub fn of(answer: Answer) -> Told
        ensures { result ≡ told_of answer }
    {
        let nothing = Told::default();
        match answer {
            Ok(Reason::Picked) => Told {
                reason: 1,
                ..nothing
            },
            Ok(Reason::NotReady { until }) => Told {
                reason: 2,
                slot: until.time(),
                ..nothing
            },
            Ok(Reason::NoCoreFree) => Told {
                reason: 3,
                ..nothing
            },
            Ok(Reason::PassedOver { by, rule }) => Told {
                reason: 4,
                row: by,
                rule: rule as u8,
                ..nothing
            },
            Err(refusal) => Told {
                number: refusal as u8,
                ..nothing
            },
        }
    }
}

// Why a row waits, or that it is picked, with k cores free in the slot about to run.
pub fn of_row(state: State, k: u8, row: u8) -> Answer
    ensures { result ≡ why_of state k row }
{
    if state.is_broken() {
        return Err(Refusal::Broken);
    }
    if state.stopped {
        return Err(Refusal::Stopped);
    }
    if counts::TIME_LIMIT <= state.time.time() {
        return Err(Refusal::AtLimit);
    }
    if state.table.cores < k {
        return Err(Refusal::TooManyCores);
    }
    if state.table.n <= row {
        return Err(Refusal::NoSuchRow);
    }
    Ok(reason_for(&state, k, row as usize))
}

// The reason, where nothing is refused.
fn reason_for(state: &State, k: u8, row: usize) -> Reason
    requires { Asked state.now k row }
    ensures { result ≡ reason_of state.now k row }
{
    let favoured = state.favoured();
    let marks = picks(state, favoured, k);
    if marks[row] {
        return Reason::Picked;
    }
    let asked = Next::of(state, row);
    if !asked.is_ready(state.time) {
        return Reason::NotReady {
            until: asked.ready_from(),
        };
    }
    if k == 0 {
        return Reason::NoCoreFree;
    }
    let fewer = picks(state, favoured, k - 1);
    let by = dropped(&marks, &fewer).unwrap();
    let kinder = favoured[by] && !favoured[row];
    let rule = order::rule_between(Next::of(state, by), asked, kinder);
    let by = by as u8;
    Reason::PassedOver { by, rule }
}

// The rows picked with k cores free, as marks; those that are favoured are known.
fn picks(state: &State, favoured: [bool; 32], k: u8) -> [bool; 32]
    requires { UsableState state.now × (favoured ≡ favoured_marks state.now) × (k ≤ 8) }
    ensures { marked result ≡ picks_in state.now k }
{
    choice::picks(
        state.table.rows,
        state.quanta,
        favoured,
        state.table.n as usize,
        state.time,
        k,
    )
}

// The row that is picked with k cores and not with one fewer: every other picked row goes before it. Where a ready row is left out there is one.
fn dropped(marks: &[bool; 32], fewer: &[bool; 32]) -> Option<usize>
    ensures { Lowest (dropped_from marks.now fewer.now) 32 (unwrap_or result 32) }
{
    (0..32).find(|i| marks[*i] && !fewer[*i])
}
