// The dispatcher: who runs in a slot. The state goes in and comes back whole.
#![tactic(auto)]

mod look;
mod picked;

ghost use Rattle.std.specs.Prelude.{◌≡◌, false, min, length, Err};
ghost use Rattle.trace.specs.Record.{marked};
ghost use Rattle.cores.specs.Placement.{nobody};
ghost use Rattle.dispatcher.specs.State.{fresh_of};
ghost use Rattle.dispatcher.specs.Broken.{broken};
ghost use Rattle.dispatcher.specs.Answer.{number_of, said_of, said_by, ran_of};
ghost use Rattle.dispatcher.specs.Slot.{stepped, refusal, slot_of};
ghost use Rattle.dispatcher.specs.Favoured.{favoured_marks};
ghost use Rattle.dispatcher.specs.Usable.{ArraysLong};
ghost use Rattle.dispatcher.specs.Tests.{ReadyOrBroken, RunsOn, CauseIs, CanStep, Judged};

use cores::Placement;
use counts::{Quanta, Slot};
use table::Table;

// 01 names this form: an array of 32 counts beside an array of row structs, in fixed memory.
#[derive(Clone, Copy)]
pub struct State {
    pub table: Table,
    pub time: Slot,
    pub stopped: bool,
    pub quanta: [Quanta; 32],
    pub last: Placement,
}

// Why a slot is refused, with the paper's number.
#[derive(Clone, Copy, PartialEq, Eq)]
pub enum Refusal {
    Broken = 30,
    Stopped = 31,
    AtLimit = 32,
    NoSuchCore = 35,
    NoRoom = 34,
}

// How a slot that was run ended: every row is in time, or some are late at this time, and the lowest of them is named.
#[derive(Clone, Copy, PartialEq, Eq)]
pub enum Ran {
    InTime,
    Late { row: u8, time: Slot },
}

// What a slot answers.
pub type Answer = Result<Ran, Refusal>;

// What an answer says, for programs, which write numbers: the paper's number, and the row and the time that it names.
#[derive(Clone, Copy)]
pub struct Told {
    pub number: u8,
    pub row: u8,
    pub time: u64,
}

// The answer, the core of each picked row, and the state as it is after the slot.
#[derive(Clone, Copy)]
pub struct Outcome {
    pub answer: Answer,
    pub placed: Placement,
    pub state: State,
}

impl Told {
    // The paper's number, row and time for each answer.
    pub fn of(answer: Answer) -> Told
        ensures { said_by result ≡ said_of answer }
    {
        match answer {
            Ok(Ran::InTime) => bare(0),
            Ok(Ran::Late { row, time }) => Told {
                number: 1,
                row,
                time: time.time(),
            },
            Err(refusal) => bare(refusal as u8),
        }
    }
}

// Only a late row is named.
fn bare(number: u8) -> Told
    ensures { result ≡ record { number = number; row = 0; time = 0 } }
{
    Told {
        number,
        row: 0,
        time: 0,
    }
}

impl State {
    // The state at time 0, with nothing given. A table with a fault makes a state whose first slot is refused.
    pub fn fresh(table: Table) -> State
        ensures { result ≡ fresh_of table }
    {
        let time = Slot::at(0);
        let none = Quanta::of(0);
        let quanta = [none; 32];
        let last = Placement::nobody();
        State {
            table,
            time,
            stopped: false,
            quanta,
            last,
        }
    }

    // Whether the state is broken. The state may be wild: only what passed is looked at further.
    pub fn is_broken(self) -> bool
        ensures { result ≡ broken self }
    {
        let mut ready = [0u64; 32];
        self.ready_rows(&mut ready).is_none()
    }

    // The rows that go first among full ties, as marks: in format 2 those that ran in the slot before, in format 1 none.
    #[tactic(auto, using(crate::proofs::Favoured::kind_marks, crate::proofs::Favoured::no_marks))]
    pub fn favoured(self) -> [bool; 32]
        ensures { result ≡ favoured_marks self }
    {
        if self.table.format == 2 {
            self.last.ran()
        } else {
            [false; 32]
        }
    }

    // One slot with a set of cores free: its record stands at the given place in the buffer, and each picked row has a core.
    // (The place may lie past the end of the buffer: that is 34.)
    pub fn slot(self, free: [bool; 32], buffer: &mut [u8], place: usize) -> Outcome
        ensures answer_value { said_of result.answer ≡ (slot_of self free buffer.old place).said }
        ensures placed_value { result.placed ≡ (slot_of self free buffer.old place).placed }
        ensures state_value { result.state ≡ (slot_of self free buffer.old place).state }
        ensures buffer_after { buffer.new ≡ (slot_of self free buffer.old place).bytes }
    {
        let mut ready = [0u64; 32];
        let found = match self.cause(free, buffer.len(), place, &mut ready) {
            Ok(found) => found,
            Err(refusal) => return self.refused(refusal),
        };
        let k = cores::how_many(free);
        let picked = picked_of(found, k);
        let keys = &ready[..found];
        let first = choice::first_left(&ready, found, k);
        picked::put_record(&mut buffer[place..], k, picked, keys, first);
        let late = picked::lowest_late(keys, first, self.time);
        let begin = place + 2;
        let rows = &buffer[begin..begin + picked as usize];
        let placed = cores::place(rows, free, self.last);
        self.one_on(rows, placed, late)
    }

    // Why a slot would be refused; None where it would not be. Nothing is run and nothing written.
    pub fn refusal(self, free: [bool; 32], buffer: &[u8], place: usize) -> Option<Refusal>
        ensures { number_of result ≡ refusal self free buffer.now place }
    {
        let mut ready = [0u64; 32];
        self.cause(free, buffer.len(), place, &mut ready).err()
    }

    // How many rows are ready in a slot that is not refused, for a buffer of so many bytes; their keys come to the front of the lent array.
    // The buffer comes as its length and a place, which the promise of `slot` speaks of.
    fn cause(
        &self,
        free: [bool; 32],
        len: usize,
        place: usize,
        ready: &mut [u64; 32],
    ) -> Result<usize, Refusal>
        requires { ArraysLong self.now × (length ready.old ≡ 32) }
        ensures { CauseIs self.now free len place result ready.new }
    {
        let found = self.ready_rows(ready).ok_or(Refusal::Broken)?;
        self.runs_on(free)?;
        let picked = picked_of(found, cores::how_many(free));
        if len < place || len - place < 2 + picked as usize {
            return Err(Refusal::NoRoom);
        }
        Ok(found)
    }

    // That a state which is not broken can run one slot more, on these cores.
    #[tactic(auto, using(crate::proofs::Judging::at_limit_then))]
    fn runs_on(&self, free: [bool; 32]) -> Result<(), Refusal>
        requires { broken self.now ≡ false }
        ensures { RunsOn self.now free result }
    {
        if self.stopped {
            return Err(Refusal::Stopped);
        }
        if counts::TIME_LIMIT <= self.time.time() {
            return Err(Refusal::AtLimit);
        }
        if cores::names_past(free, self.table.cores) {
            return Err(Refusal::NoSuchCore);
        }
        Ok(())
    }

    // How many rows are ready; None in a broken state. In a state that runs on, their keys come to the front of the lent array.
    fn ready_rows(&self, ready: &mut [u64; 32]) -> Option<usize>
        requires { ArraysLong self.now × (length ready.old ≡ 32) }
        ensures { ReadyOrBroken self.now ready.new result }
    {
        if table::fault(self.table).is_some() {
            return None;
        }
        if counts::TIME_LIMIT < self.time.time() {
            return None;
        }
        let found = look::look(self, ready)?;
        if self.last.is_faulty(self.table.cores, self.table.n) {
            return None;
        }
        Some(found)
    }

    // A refusal hands back the state as it came, and places nobody.
    fn refused(self, refusal: Refusal) -> Outcome
        ensures { result ≡ record { answer = Err refusal; placed = nobody; state = self } }
    {
        Outcome {
            answer: Err(refusal),
            placed: Placement::nobody(),
            state: self,
        }
    }

    // The slot is over: these rows have one quantum more, time is one higher, and what ran where is remembered. With a late row the state is stopped.
    fn one_on(mut self, rows: &[u8], placed: Placement, late: Option<u8>) -> Outcome
        requires { CanStep self rows.now late }
        ensures { Judged (stepped self rows.now placed) result }
    {
        self.quanta = picked::give(self.quanta, rows);
        self.time = self.time.later(1);
        self.last = placed;
        self.stopped = late.is_some();
        let answer = Ok(ended(late, self.time));
        Outcome {
            answer,
            placed,
            state: self,
        }
    }
}

// Where a row stands in a slot: it breaks the state, it waits, or it is ready.
#[derive(Clone, Copy)]
enum Stand {
    Breaks,
    Waits,
    Ready,
}

// How many rows are picked: "the first min(free cores, ready rows) are picked".
fn picked_of(ready: usize, free: u8) -> u8
    ensures { result ≡ min free ready }
{
    ready.min(free as usize) as u8
}

// How a slot with this lowest late row ended.
fn ended(late: Option<u8>, time: Slot) -> Ran
    ensures { result ≡ ran_of late time }
{
    match late {
        Some(row) => Ran::Late { row, time },
        None => Ran::InTime,
    }
}
