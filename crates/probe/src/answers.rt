// One function for each letter. Each is lent the input from its letter on, writes the answer, and says how many bytes the request has: none
// if it is cut, and then nothing was written. Bytes past the end count as 0, so a length that is itself cut is read as some number; but
// what it measures would begin past the end, so the request is cut whatever the number is. The only errors are those of a write to standard
// output: the answer may then be there in part, and a buffer in the input is as the function that it was lent to left it.
ghost use Rattle.std.specs.Prelude.{◌≡◌, ◌+◌, ◌≤◌, length, IfOk, IfSome};
ghost use Rattle.table.specs.Reply.{written_of};
ghost use Rattle.values.specs.Requests.{Inside};
ghost use Rattle.probe.specs.Requests.{QuestionAt};

use crate::{checked, put, read};
use counts::{Slot, Subtask};
use dispatcher::{Outcome, Told};
use std::io;
use table::{Fault, Unwritten};
use windows::Window;

// W and G: e (2), p (2), f (2), i (8). With G, D is found by the walk.
pub(crate) fn window<F: Fn(u16, u16, u16, Subtask) -> Option<Window>>(
    rt: &impl Print,
    request: &[u8],
    ask: F,
) -> io::Result<Option<usize>>
    requires { F.IsAlwaysCallable ask }
    ensures { IfOk result (Inside (length request.now)) }
{
    if request.len() < 15 {
        return Ok(None);
    }
    let Question { e, p, f, i } = asked(request);
    let mut out = [0; 26];
    put_window(&mut out, ask(e, p, f, i));
    rt.write_all(&out)?;
    Ok(Some(15))
}

// What a window question asks by: cost, period, phase and subtask.
#[derive(Clone, Copy)]
struct Question {
    e: u16,
    p: u16,
    f: u16,
    i: Subtask,
}

fn asked(request: &[u8]) -> Question
    requires { 15 ≤ length request.now }
    ensures { QuestionAt request.now 1 result }
{
    Question {
        e: fields::half(request, 1),
        p: fields::half(request, 3),
        f: fields::half(request, 5),
        i: Subtask::numbered(read::long(request, 7)),
    }
}

// The whole answer to a window question: number, r (8), d (8), b and D (8). All but the number of a refusal stays 0.
fn put_window(out: &mut [u8; 26], found: Option<Window>) {
    let Some(window) = found else {
        out[0] = 50;
        return;
    };
    let past_start = put::number(out, 1, 8, window.start.time());
    let past_deadline = put::number(out, past_start, 8, window.deadline.time());
    let past_bit = put::number(out, past_deadline, 1, u64::from(window.bit));
    put::number(out, past_bit, 8, window.group.time());
}

// T: the length (4) of a table, and its bytes. The answer is the number and a table value (303), all 0 where the table is refused.
pub(crate) fn table(rt: &impl Print, request: &[u8]) -> io::Result<Option<usize>>
    ensures { IfOk result (Inside (length request.now)) }
{
    let end = 5 + fields::word(request, 1) as usize;
    if request.len() < end {
        return Ok(None);
    }
    let mut out = [0; 304];
    match table::read(&request[5..end]) {
        Ok(table) => {
            put::table(&mut out, 1, table);
        }
        Err(fault) => out[0] = fault.number(),
    }
    rt.write_all(&out)?;
    Ok(Some(end))
}

// V: a table value (303). The answer is the number of its fault, 0 where it has none.
pub(crate) fn fault(rt: &impl Print, request: &[u8]) -> io::Result<Option<usize>>
    ensures { IfOk result (Inside (length request.now)) }
{
    if request.len() < 304 {
        return Ok(None);
    }
    let fault = table::fault(read::table(request, 1));
    rt.write_all(&[fault.map_or(0, Fault::number)])?;
    Ok(Some(304))
}

// P: a table value (303), the length (4) of the buffer, and its bytes: the buffer is lent where it stands in the input. The answer is the number, how many
// bytes were written (8), and the buffer.
pub(crate) fn write_table(rt: &impl Print, request: &mut [u8]) -> io::Result<Option<usize>>
    ensures { IfOk result (Inside (length request.old)) }
{
    let end = 308 + fields::word(request, 304) as usize;
    if request.len() < end {
        return Ok(None);
    }
    let value = read::table(request, 1);
    let written = table::write(value, &mut request[308..end]);
    let mut out = [0; 9];
    let past_number = put::number(&mut out, 0, 1, u64::from(writing_number(written)));
    put::number(&mut out, past_number, 8, written.unwrap_or(0) as u64);
    rt.write_all(&out)?;
    rt.write_all(&request[308..end])?;
    Ok(Some(end))
}

// 01's number for each answer of the table writer.
fn writing_number(written: Result<usize, Unwritten>) -> u8
    ensures { result ≡ (written_of written).number }
{
    match written {
        Ok(_) => 0,
        Err(Unwritten::Faulty(fault)) => fault.number(),
        Err(Unwritten::NoRoom) => 37,
    }
}

// S: a state (585), k (1), the place (8), the length (4) of the buffer, and its bytes. k means the first k cores.
pub(crate) fn slot(rt: &impl Print, request: &mut [u8]) -> io::Result<Option<usize>>
    ensures { IfOk result (Inside (length request.old)) }
{
    let Some(end) = slot_end(request, 587) else {
        return Ok(None);
    };
    let free = cores::first(fields::byte(request, 586));
    let outcome = run_slot(request, free, 587, end);
    tell(rt, outcome)?;
    rt.write_all(&request[599..end])?;
    Ok(Some(end))
}

// K: as S, with a set of free cores (4) in the place of k.
pub(crate) fn slot_on_set(rt: &impl Print, request: &mut [u8]) -> io::Result<Option<usize>>
    ensures { IfOk result (Inside (length request.old)) }
{
    let Some(end) = slot_end(request, 590) else {
        return Ok(None);
    };
    let free = read::set(request, 586);
    let outcome = run_slot(request, free, 590, end);
    tell_with_cores(rt, outcome)?;
    rt.write_all(&request[602..end])?;
    Ok(Some(end))
}

// Where a request for a slot ends, by where its place (8) stands: behind that are the length (4) of the buffer, and its bytes. It counts as cut
// too if the state's mark is neither 0 nor 1.
fn slot_end(request: &[u8], at: usize) -> Option<usize>
    requires { (586 ≤ at) × (at ≤ 590) }
    ensures { IfSome result (λ end. (at + 12 ≤ end) × (end ≤ length request.now)) }
{
    let end = at + 12 + fields::word(request, at + 8) as usize;
    if request.len() < end || is_marked_wild(request) {
        return None;
    }
    Some(end)
}

// Whether the mark of a state behind a letter is neither 0 nor 1.
fn is_marked_wild(request: &[u8]) -> bool {
    1 < fields::byte(request, 312)
}

// The slot that is asked for, with these cores free: the buffer is lent where it stands in the input.
fn run_slot(request: &mut [u8], free: [bool; 32], at: usize, end: usize) -> Outcome
    requires { (586 ≤ at) × ((at + 12 ≤ end) × (end ≤ length request.old)) }
{
    let state = read::state(request, 1);
    let place = read::long(request, at) as usize;
    state.slot(free, &mut request[at + 12..end], place)
}

// Writes the head of a slot's answer: number, row and time, and the state that the slot left.
fn tell(rt: &impl Print, outcome: Outcome) -> io::Result<()> {
    let mut out = [0; 595];
    let past_told = put::told(&mut out, 0, Told::of(outcome.answer));
    put::state(&mut out, past_told, outcome.state);
    rt.write_all(&out)
}

// The same with the cores of the picked rows (17), before the state. (Each has an array of its own length: one function for both would be longer.)
fn tell_with_cores(rt: &impl Print, outcome: Outcome) -> io::Result<()> {
    let mut out = [0; 612];
    let past_told = put::told(&mut out, 0, Told::of(outcome.answer));
    let past_placement = put::placement(&mut out, past_told, outcome.placed);
    put::state(&mut out, past_placement, outcome.state);
    rt.write_all(&out)
}

// Y: a state (585), k (1) and a row (1). A mark that is neither 0 nor 1 counts as cut. The answer is number, reason, slot (8), row and rule.
pub(crate) fn reason(rt: &impl Print, request: &[u8]) -> io::Result<Option<usize>>
    ensures { IfOk result (Inside (length request.now)) }
{
    if request.len() < 588 || is_marked_wild(request) {
        return Ok(None);
    }
    let state = read::state(request, 1);
    let told = why::Told::of(why::of_row(state, request[586], request[587]));
    let mut out = [0; 12];
    let past_number = put::number(&mut out, 0, 1, u64::from(told.number));
    let past_reason = put::number(&mut out, past_number, 1, u64::from(told.reason));
    let past_slot = put::number(&mut out, past_reason, 8, told.slot);
    let past_row = put::number(&mut out, past_slot, 1, u64::from(told.row));
    put::number(&mut out, past_row, 1, u64::from(told.rule));
    rt.write_all(&out)?;
    Ok(Some(588))
}

// R: a slot (8), the length (4) of a trace, and its bytes. The answer says where the part begins (8), so that it is told from an equal one elsewhere, how long
// it is (8), and its bytes.
pub(crate) fn record(rt: &impl Print, request: &[u8]) -> io::Result<Option<usize>>
    ensures { IfOk result (Inside (length request.now)) }
{
    let end = 13 + fields::word(request, 9) as usize;
    if request.len() < end {
        return Ok(None);
    }
    let slot = Slot::at(read::long(request, 1));
    let trace = &request[13..end];
    let part = trace::record(trace, slot);
    let mut out = [0; 16];
    let past_begins = put::number(&mut out, 0, 8, trace::begins(trace, slot) as u64);
    put::number(&mut out, past_begins, 8, part.len() as u64);
    rt.write_all(&out)?;
    rt.write_all(part)?;
    Ok(Some(end))
}

// C: a table and a trace, each behind its length (4).
pub(crate) fn check(rt: &impl Print, request: &[u8]) -> io::Result<Option<usize>>
    ensures { IfOk result (Inside (length request.now)) }
{
    let table_end = 5 + fields::word(request, 1) as usize;
    let start = table_end + 4;
    let end = start + fields::word(request, table_end) as usize;
    if request.len() < end {
        return Ok(None);
    }
    let answer = checker::check(&request[5..table_end], &request[start..end]);
    let mut out = [0; 10];
    put::told(&mut out, 0, checked::told(answer));
    rt.write_all(&out)?;
    Ok(Some(end))
}
