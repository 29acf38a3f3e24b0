// Values read from bytes. Places are bounded only so that no sum of them wraps; they stand beside the bytes, since past the end there is no part of them.
ghost use Rattle.std.specs.Prelude.{◌≡◌, ◌<◌};
ghost use Rattle.table.specs.Bytes.{row_in_bytes};
ghost use Rattle.values.specs.Values.{eight_in_bytes, rows_in_bytes, quanta_in_bytes, value_in_bytes, placement_in_bytes, state_in_bytes};

use cores::Placement;
use counts::{Quanta, Slot};
use dispatcher::State;
use table::{Row, Table};

// The reader of tables has its own, of nine bytes that are there.
pub(crate) fn row(bytes: &[u8], at: usize) -> Row
    requires { at < 600 }
    ensures { result ≡ row_in_bytes bytes.now at }
{
    Row {
        tank: fields::half(bytes, at),
        cost: fields::half(bytes, at + 2),
        period: fields::half(bytes, at + 4),
        phase: fields::half(bytes, at + 6),
        kind: fields::byte(bytes, at + 8),
    }
}

pub(crate) fn rows(bytes: &[u8], at: usize) -> [Row; 32]
    requires { at < 300 }
    ensures { result ≡ rows_in_bytes bytes.now at }
{
    // What a place holds before its row is read does not matter.
    let mut rows = [row(bytes, at); 32];
    for (i, place) in rows.iter_mut().enumerate() {
        *place = row(bytes, at + 9 * i);
    }
    rows
}

pub(crate) fn quanta(bytes: &[u8], at: usize) -> [Quanta; 32]
    requires { at < 600 }
    ensures { result ≡ quanta_in_bytes bytes.now at }
{
    let mut quanta = [Quanta::of(0); 32];
    for (i, given) in quanta.iter_mut().enumerate() {
        *given = Quanta::of(fields::long(bytes, at + 8 * i));
    }
    quanta
}

pub(crate) fn table(bytes: &[u8]) -> Table
    ensures { result ≡ value_in_bytes bytes.now 0 }
{
    Table {
        format: fields::byte(bytes, 0),
        cycle: fields::word(bytes, 1),
        cores: fields::byte(bytes, 5),
        boards: eight(bytes, 6),
        n: fields::byte(bytes, 14),
        rows: rows(bytes, 15),
    }
}

pub(crate) fn state(bytes: &[u8]) -> State
    ensures { result ≡ state_in_bytes bytes.now 0 }
{
    State {
        table: table(bytes),
        time: Slot::at(fields::long(bytes, 303)),
        stopped: fields::byte(bytes, 311) == 1,
        quanta: quanta(bytes, 312),
        last: placement(bytes, 568),
    }
}

fn placement(bytes: &[u8], at: usize) -> Placement
    requires { at < 600 }
    ensures { result ≡ placement_in_bytes bytes.now at }
{
    Placement {
        count: fields::byte(bytes, at),
        rows: eight(bytes, at + 1),
        cores: eight(bytes, at + 9),
    }
}

// Eight numbers of a byte each: boards, and the rows or cores of a placement.
fn eight(bytes: &[u8], at: usize) -> [u8; 8]
    requires { at < 700 }
    ensures { result ≡ eight_in_bytes bytes.now at }
{
    let mut numbers = [0; 8];
    for (i, number) in numbers.iter_mut().enumerate() {
        *number = fields::byte(bytes, at + i);
    }
    numbers
}
