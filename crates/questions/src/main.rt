// The questions: a second program beside the probe. It puts questions to the functions that a slot is made of, each alone, so that any
// program can compare itself with them on wild inputs.
//
// It reads one request after another until the input ends, at most 1 MiB in all, and writes one answer for each. Numbers are
// little-endian. A request that is unknown or cut is answered by the byte 255, and ends the run. Of a longer input the requests that lie
// wholly within the limit are answered, and the first that reaches past it is cut.
//
// A row is 9 bytes as in 01: tank (2), e (2), p (2), f (2), kind (1). Quanta are 8 bytes each. Marks are 32 bytes, each 0 or 1: with any
// other byte the request is cut. A table value (303) is its format (1), L (4), M (1), 8 board numbers (1 each), n (1) and 32 rows. A state
// (585) is a table value, the time (8), the stopped mark (1), 32 quanta and a placement: a count (1), 8 rows (1 each), 8 cores (1 each).
//
// Nothing is judged before: rows, quanta and numbers may be wild. Kind 1 is early release, and any other kind is plain. A question about
// one row is answered if 0 < e, e is at or below p, and the numbers asked with it (quanta, and origin or time) are each at or below 2^40.
//
// | request                                       | answer                                                                       |
// |-----------------------------------------------|------------------------------------------------------------------------------|
// | F: a table value                              | the state that is fresh from it: the value as it came, time 0, not stopped,  |
// |                                               | all quanta 0, nobody remembered (0 in each of the 17 bytes)                  |
// | N: e (2), p (2), origin (8), quanta (8)       | of the next subtask (number quanta + 1) of a row e/p whose windows are       |
// |                                               | counted from the origin: answered (1: 1 or 0), d (8), b (1); answered (1),   |
// |                                               | r (8); answered (1), the start of its job (8); answered (1), D (8). All 0    |
// |                                               | where it is not answered                                                     |
// | A: a row, quanta (8), time (8)                | ready in this slot, late at this time, inside its share at this time (1 each:|
// |                                               | 1 yes, 0 no, 2 not answered); the origin of its windows (8), which is f      |
// | P: 32 rows, 32 quanta, n (8), time (8), k (1) | 32 marks: the rows picked. Of the rows below n (all 32 where n is above 32)  |
// |                                               | those that are answered and ready in this slot; of these the first k, but no |
// |                                               | more than 8, in 01's order, or all if fewer                                  |
// | L: 32 rows, 32 quanta, n (8), time (8)        | the lowest row below n (below 32 where n is above 32) that is answered and   |
// |                                               | late at this time; n, but no more than 32, where there is none (8)           |
// | G: 32 quanta, 32 marks                        | 32 quanta: each marked one has one more, but 2^64 - 1 stays                  |
// | O: k (1), 32 marks, the length (4) of a part, | number (1: 0 written, 34 no room), and the part: with 0 the record of the    |
// |    and its bytes                              | slot (k, how many rows are marked, their numbers rising) stands at its front |
// |                                               | and every other byte is as before; with 34 it is as it came                  |
#![tactic(auto)]

mod answers;
mod put;

ghost use Rattle.std.specs.Prelude.{◌≡◌, ◌≤◌, length, IfOk};
ghost use Rattle.values.specs.Requests.{Inside};

use std::io;
use std::io::Read;

const INPUT_LIMIT: usize = 1_048_576;

// (The probe reads and answers in the same way: what both use would be public, and a promise of what is read and written leaves more than one result.)
fn main(rt: HostRuntime) -> io::Result<()> {
    let mut input = room();
    let given = read_full(&mut rt.reader(), &mut input)?;
    let within = given.min(INPUT_LIMIT);
    let answered = answer_all(&rt, &mut input[..within])?;
    if answered < given {
        rt.write_all(&[255])?;
    }
    Ok(())
}

// One byte more than an input may have, so that a longer one is noticed.
fn room() -> [u8; INPUT_LIMIT + 1]
    ensures { 1_048_577 ≡ length result }
{
    [0; INPUT_LIMIT + 1]
}

// Reads until the buffer is full or the input ends, and says how many bytes stand at the front of the buffer. The only errors are those of a read:
// the front of the buffer may then hold some of the input.
// In fixed memory, and in each program: the library's read_to_end takes a heap, and so three more functions of C on trust; a public function for all would need a promise that leaves one result.
fn read_full(input: &mut impl Read, buffer: &mut [u8]) -> io::Result<usize>
    ensures { IfOk result (λ n. n ≤ length buffer.new) }
{
    // No range to go over: each step is as long as what was read.
    let mut done = 0;
    while done < buffer.len() {
        let got = input.read(&mut buffer[done..])?;
        if got == 0 {
            break;
        }
        done += got;
    }
    Ok(done)
}

// Answers the requests from the front on, and says where the first stands that is unknown or cut: at the end, if there is none. The only errors are
// those of a write to standard output, which ends the run.
fn answer_all(rt: &impl Print, requests: &mut [u8]) -> io::Result<usize>
    ensures { IfOk result (λ n. n ≤ length requests.old) }
{
    // No range to go over: each step is as long as its request.
    let mut at = 0;
    while at < requests.len() {
        let Some(length) = answer(rt, &mut requests[at..])? else {
            break;
        };
        at += length;
    }
    Ok(at)
}

// Answers the request at the front, and says how many bytes it has, or that it is unknown or cut. The only errors are those of a write.
fn answer(rt: &impl Print, requests: &mut [u8]) -> io::Result<Option<usize>>
    ensures { IfOk result (Inside (length requests.old)) }
{
    match fields::byte(requests, 0) {
        b'F' => answers::fresh(rt, requests),
        b'N' => answers::next(rt, requests),
        b'A' => answers::row(rt, requests),
        b'P' => answers::picks(rt, requests),
        b'L' => answers::late(rt, requests),
        b'G' => answers::give(rt, requests),
        b'O' => answers::record(rt, requests),
        _ => Ok(None),
    }
}
