// The slot printer: the schedule of the table on standard input, as text on standard output.
#![tactic(auto)]

ghost use Rattle.std.specs.Prelude.{◌≤◌, length, IfOk};

use std::io;
use std::io::Read;

fn main(rt: HostRuntime) -> io::Result<()> {
    // One byte more than an input may have, so that a longer one is noticed.
    let mut input = [0u8; 65_537];
    let read = read_full(&mut rt.reader(), &mut input)?;
    let mut text = [0u8; printer::TEXT_LIMIT];
    let printed = printer::print(&input[..read], &mut text);
    // Every text fits.
    prove!(printed.is_ok());
    let length = printer::length(printed);
    rt.write_all(&text[..length])
}

// Reads until the buffer is full or the input ends, and says how many bytes stand at the front of the buffer. The only errors are those of a read:
// the front of the buffer may then hold some of the input.
// In fixed memory, and in each program: the library's read_to_end takes a heap, and so three more functions of C on trust; a public function for all would need a promise that leaves one result.
fn read_full(input: &mut impl Read, buffer: &mut [u8]) -> io::Result<usize>
    ensures { IfOk result (λ n. n ≤ length buffer.new) }
{
    // No range to go over: each step is as long as what was read.
    let mut done = 0;
    while done < buffer.len() {
        let got = input.read(&mut buffer[done..])?;
        if got == 0 {
            break;
        }
        done += got;
    }
    Ok(done)
}
