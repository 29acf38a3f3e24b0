// One function for each letter. Each is lent the input from its letter on, writes the answer, and says how many bytes the request has: none
// if it is cut, and then nothing was written. The only errors are those of a write to standard output: the answer may then be there in part,
// and a part in the input is as the writer that it was lent to left it.
ghost use Rattle.std.specs.Prelude.{◌≡◌, ◌+◌, ◌≤◌, ◌<◌, length, IfOk, IfSome};
ghost use Rattle.trace.specs.Record.{stored_number};
ghost use Rattle.values.specs.Requests.{Inside};

use crate::put;
use counts::{Quanta, Slot};
use dispatcher::State;
use std::io;
use trace::NoRoom;
use windows::Due;

// F: the state that is fresh from a table value (303).
pub(crate) fn fresh(rt: &impl Print, request: &[u8]) -> io::Result<Option<usize>>
    ensures { IfOk result (Inside (length request.now)) }
{
    if request.len() < 304 {
        return Ok(None);
    }
    let state = State::fresh(values::table(&request[1..]));
    let mut answer = [0; 585];
    put::state(&mut answer, 0, state);
    rt.write_all(&answer)?;
    Ok(Some(304))
}

// N: the window of the next subtask, by e (2), p (2), origin (8) and quanta (8).
pub(crate) fn next(rt: &impl Print, request: &[u8]) -> io::Result<Option<usize>>
    ensures { IfOk result (Inside (length request.now)) }
{
    if request.len() < 21 {
        return Ok(None);
    }
    let e = fields::half(request, 1);
    let p = fields::half(request, 3);
    let origin = slot_at(request, 5);
    let given = quanta_at(request, 13);
    let mut answer = [0; 37];
    put_due(&mut answer, windows::next_due(e, p, origin, given));
    put_slot(&mut answer, 10, windows::next_start(e, p, origin, given));
    put_slot(
        &mut answer,
        19,
        windows::next_job_start(e, p, origin, given),
    );
    put_slot(
        &mut answer,
        28,
        windows::next_group_deadline(e, p, origin, given),
    );
    rt.write_all(&answer)?;
    Ok(Some(21))
}

// At the front: answered (1), the deadline (8) and the bit (1). What is not answered stays 0.
fn put_due(answer: &mut [u8; 37], due: Option<Due>) {
    if let Some(Due { deadline, bit }) = due {
        answer[0] = 1;
        put::number(answer, 1, 8, deadline.time());
        answer[9] = bit;
    }
}

// Answered (1), and the time (8).
fn put_slot(answer: &mut [u8; 37], at: usize, slot: Option<Slot>)
    requires { at + 9 ≤ 37 }
{
    if let Some(slot) = slot {
        answer[at] = 1;
        put::number(answer, at + 1, 8, slot.time());
    }
}

// A: a row (9) with its quanta (8) at a time (8).
pub(crate) fn row(rt: &impl Print, request: &[u8]) -> io::Result<Option<usize>>
    ensures { IfOk result (Inside (length request.now)) }
{
    if request.len() < 26 {
        return Ok(None);
    }
    let row = values::row(&request[1..]);
    let given = quanta_at(request, 10);
    let time = slot_at(request, 18);
    let ready = verdict(pd2::ready(row, given, time));
    let late = verdict(pd2::late(row, given, time));
    let within = verdict(pd2::within(row, given, time));
    let mut answer = [ready, late, within, 0, 0, 0, 0, 0, 0, 0, 0];
    put::number(&mut answer, 3, 8, pd2::origin(row).time());
    rt.write_all(&answer)?;
    Ok(Some(26))
}

// 1 yes, 0 no, 2 not answered.
fn verdict(answer: Option<bool>) -> u8 {
    answer.map_or(2, u8::from)
}

// P: who is picked, of 32 rows with their quanta, by n (8), time (8) and k (1).
pub(crate) fn picks(rt: &impl Print, request: &[u8]) -> io::Result<Option<usize>>
    ensures { IfOk result (Inside (length request.now)) }
{
    if request.len() < 562 {
        return Ok(None);
    }
    let rows = values::rows(&request[1..]);
    let quanta = values::quanta(&request[289..]);
    let n = fields::long(request, 545) as usize;
    let time = slot_at(request, 553);
    // 01's order: nobody is favoured.
    let nobody = [false; 32];
    let picked = choice::picks(rows, quanta, nobody, n, time, request[561]);
    rt.write_all(&picked.map(u8::from))?;
    Ok(Some(562))
}

// L: who is late first, of 32 rows with their quanta, by n (8) and time (8).
pub(crate) fn late(rt: &impl Print, request: &[u8]) -> io::Result<Option<usize>>
    ensures { IfOk result (Inside (length request.now)) }
{
    if request.len() < 561 {
        return Ok(None);
    }
    let rows = values::rows(&request[1..]);
    let quanta = values::quanta(&request[289..]);
    let n = fields::long(request, 545) as usize;
    let late = pd2::lowest_late(rows, quanta, n, slot_at(request, 553));
    rt.write_all(&(late as u64).to_le_bytes())?;
    Ok(Some(561))
}

// G: one quantum more for each marked row: 32 quanta and 32 marks.
pub(crate) fn give(rt: &impl Print, request: &[u8]) -> io::Result<Option<usize>>
    ensures { IfOk result (Inside (length request.now)) }
{
    if request.len() < 289 {
        return Ok(None);
    }
    let Some(marks) = marks(&request[257..]) else {
        return Ok(None);
    };
    let mut answer = [0; 256];
    let given = pd2::give(values::quanta(&request[1..]), marks);
    put::quanta(&mut answer, 0, given);
    rt.write_all(&answer)?;
    Ok(Some(289))
}

// O: the record of a slot, by k (1) and 32 marks, in a part behind its length (4). The part is lent to the writer where it stands in the
// input. A byte past the end counts as 0, so a length that is itself cut is read as some number; but the part would begin past the end, so
// the request is cut whatever the number is.
pub(crate) fn record(rt: &impl Print, request: &mut [u8]) -> io::Result<Option<usize>>
    ensures { IfOk result (Inside (length request.old)) }
{
    let end = 38 + fields::word(request, 34) as usize;
    if request.len() < end {
        return Ok(None);
    }
    let Some(marks) = marks(&request[2..]) else {
        return Ok(None);
    };
    let k = request[1];
    let stored = trace::write(&mut request[38..end], k, marks);
    rt.write_all(&[number_of(stored)])?;
    rt.write_all(&request[38..end])?;
    Ok(Some(end))
}

// 01's number for what the writer says.
fn number_of(stored: Result<(), NoRoom>) -> u8
    ensures { result ≡ stored_number stored }
{
    match stored {
        Ok(()) => 0,
        Err(NoRoom) => 34,
    }
}

// The marks in the 32 bytes at the front, if each is 0 or 1. A byte past the end counts as 0.
fn marks(bytes: &[u8]) -> Option<[bool; 32]> {
    let mut marks = [false; 32];
    for (i, mark) in marks.iter_mut().enumerate() {
        match fields::byte(bytes, i) {
            0 => {}
            1 => *mark = true,
            _ => return None,
        }
    }
    Some(marks)
}

// The quanta of one row in the eight bytes from place `at` on, and a slot's number there.
fn quanta_at(request: &[u8], at: usize) -> Quanta {
    Quanta::of(fields::long(request, at))
}

fn slot_at(request: &[u8], at: usize) -> Slot {
    Slot::at(fields::long(request, at))
}
