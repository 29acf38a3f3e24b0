// The board numbers of a table.
ghost use Rattle.std.specs.Prelude.{◌≡◌, ◌≤◌, IfOk};
ghost use Rattle.facts.specs.Findings.{first_found};
ghost use Rattle.facts.specs.Rising.{rising};
ghost use Rattle.table.specs.Causes.{board_tests, board_above};
ghost use Rattle.table.specs.Reply.{number_of};
ghost use Rattle.table.specs.Parts.{boards_fault_in, boards_in};

use crate::Fault;

// The m board numbers, which begin at place 6, or the first fault met.
pub(crate) fn read(bytes: &[u8], m: usize) -> Result<[u8; 8], Fault>
    requires { m ≤ 8 }
    ensures number { number_of result ≡ boards_fault_in bytes.now m }
    ensures boards { IfOk result (λ boards. boards ≡ boards_in bytes.now m) }
{
    let mut boards = [0u8; 8];
    let mut least: u16 = 0;
    for i in 0..m {
        let at = 6 + i;
        if bytes.len() <= at {
            return Err(Fault::Ends);
        }
        let board = fields::byte(bytes, at);
        let number = board as u16;
        if number < least {
            return Err(Fault::Boards);
        }
        boards[i] = board;
        least = number + 1;
    }
    Ok(boards)
}

// Whether board numbers rise strictly, or the fault. (No one function with `read`, which goes over bytes that may be cut and fills an array.)
pub(crate) fn judge(boards: &[u8]) -> Result<(), Fault>
    ensures { number_of result ≡ first_found 0 (rising board_tests board_above 0 boards.now) }
{
    let mut least: u16 = 0;
    for board in boards {
        let number = *board as u16;
        if number < least {
            return Err(Fault::Boards);
        }
        least = number + 1;
    }
    Ok(())
}
