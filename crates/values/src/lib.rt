// The values that requests and answers hold, in the bytes from the front of what is lent on: rows, quanta, tables, placements and states. Any bytes are those of a value, so a
// value may be wild. A byte past the end counts as 0 where it is read, and is left out where it is written.
#![tactic(auto)]

mod read;
mod write;

ghost use Rattle.std.specs.Prelude.{◌≡◌};
ghost use Rattle.std.proofs.lemmas.List.Edits.{sets};
ghost use Rattle.table.specs.Bytes.{row_in_bytes};
ghost use Rattle.values.specs.Values.{rows_in_bytes, quanta_in_bytes, value_in_bytes, state_in_bytes, bytes_of_quanta, bytes_of_value, bytes_of_placement, bytes_of_state};

use cores::Placement;
use counts::Quanta;
use dispatcher::State;
use table::{Row, Table};

// A row has nine bytes.
pub fn row(bytes: &[u8]) -> Row
    ensures { result ≡ row_in_bytes bytes.now 0 }
{
    read::row(bytes, 0)
}

// 32 rows have 288.
pub fn rows(bytes: &[u8]) -> [Row; 32]
    ensures { result ≡ rows_in_bytes bytes.now 0 }
{
    read::rows(bytes, 0)
}

// 32 quanta have 256.
pub fn quanta(bytes: &[u8]) -> [Quanta; 32]
    ensures { result ≡ quanta_in_bytes bytes.now 0 }
{
    read::quanta(bytes, 0)
}

// A table value has 303.
pub fn table(bytes: &[u8]) -> Table
    ensures { result ≡ value_in_bytes bytes.now 0 }
{
    read::table(bytes)
}

// A state has 585.
pub fn state(bytes: &[u8]) -> State
    ensures { result ≡ state_in_bytes bytes.now 0 }
{
    read::state(bytes)
}

// Writes 32 quanta.
pub fn put_quanta(bytes: &mut [u8], quanta: [Quanta; 32])
    ensures { bytes.new ≡ sets bytes.old 0 (bytes_of_quanta quanta) }
{
    write::quanta(bytes, 0, &quanta)
}

// Writes a table value.
pub fn put_table(bytes: &mut [u8], table: Table)
    ensures { bytes.new ≡ sets bytes.old 0 (bytes_of_value table) }
{
    write::table(bytes, table)
}

// Writes a placement: 17 bytes.
pub fn put_placement(bytes: &mut [u8], placed: Placement)
    ensures { bytes.new ≡ sets bytes.old 0 (bytes_of_placement placed) }
{
    write::placement(bytes, 0, placed)
}

// Writes a state.
pub fn put_state(bytes: &mut [u8], state: State)
    ensures { bytes.new ≡ sets bytes.old 0 (bytes_of_state state) }
{
    write::state(bytes, state)
}
