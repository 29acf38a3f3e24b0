// The probe: reads requests, at most 1 MiB in all, and answers one after another, so that any program can compare itself with the functions
// of this repository on wild inputs. A request is a letter and what is asked; one that is unknown or cut is answered by the byte 255, and
// ends the run. Numbers are little-endian.
#![tactic(auto)]

mod answers;
mod checked;
mod put;
mod read;

ghost use Rattle.std.specs.Prelude.{◌≡◌, ◌≤◌, length, IfOk};
ghost use Rattle.values.specs.Requests.{Inside};

use std::io;
use std::io::Read;

const INPUT_LIMIT: usize = 1_048_576;

// (`questions` reads and answers in the same way: what both use would be public, and a promise of what is read and written leaves more than one result.)
fn main(rt: HostRuntime) -> io::Result<()> {
    let mut input = room();
    let given = read_full(&mut rt.reader(), &mut input)?;
    let within = given.min(INPUT_LIMIT);
    let answered = answer_all(&rt, &mut input[..within])?;
    if answered < given {
        rt.write_all(&[255])?;
    }
    Ok(())
}

// One byte more than an input may have, so that a longer one is noticed: its requests are answered as far as they lie within the limit, and
// the one that reaches past it is cut.
fn room() -> [u8; INPUT_LIMIT + 1]
    ensures { 1_048_577 ≡ length result }
{
    [0; INPUT_LIMIT + 1]
}

// Reads until the buffer is full or the input ends, and says how many bytes stand at the front of the buffer. The only errors are those of a read:
// the front of the buffer may then hold some of the input.
// In fixed memory, and in each program: the library's read_to_end takes a heap, and so three more functions of C on trust; a public function for all would need a promise that leaves one result.
fn read_full(input: &mut impl Read, buffer: &mut [u8]) -> io::Result<usize>
    ensures { IfOk result (λ n. n ≤ length buffer.new) }
{
    // No range to go over: each step is as long as what was read.
    let mut done = 0;
    while done < buffer.len() {
        let got = input.read(&mut buffer[done..])?;
        if got == 0 {
            break;
        }
        done += got;
    }
    Ok(done)
}

// Answers the requests from the front on, and says where the first stands that is unknown or cut: at the end, if there is none. The only errors are
// those of a write to standard output, which ends the run.
fn answer_all(rt: &impl Print, requests: &mut [u8]) -> io::Result<usize>
    ensures { IfOk result (λ n. n ≤ length requests.old) }
{
    // No range to go over: each step is as long as its request.
    let mut at = 0;
    while at < requests.len() {
        let Some(length) = answer(rt, &mut requests[at..])? else {
            break;
        };
        at += length;
    }
    Ok(at)
}

// Answers the request at the front, and says how many bytes it has, or that it is unknown or cut. The only errors are those of a write.
fn answer(rt: &impl Print, requests: &mut [u8]) -> io::Result<Option<usize>>
    ensures { IfOk result (Inside (length requests.old)) }
{
    match fields::byte(requests, 0) {
        b'W' => answers::window(rt, requests, windows::window),
        b'G' => answers::window(rt, requests, windows::window_by_walk),
        b'T' => answers::table(rt, requests),
        b'V' => answers::fault(rt, requests),
        b'P' => answers::write_table(rt, requests),
        b'S' => answers::slot(rt, requests),
        b'K' => answers::slot_on_set(rt, requests),
        b'Y' => answers::reason(rt, requests),
        b'R' => answers::record(rt, requests),
        b'C' => answers::check(rt, requests),
        _ => Ok(None),
    }
}
