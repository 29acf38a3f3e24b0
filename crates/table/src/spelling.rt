// Writing a table: one part behind the other, from the front of the lent buffer on. No function asks for room: what would stand past the end is not
// written, and `write` has seen that there is room for all. Places are bounded, so that no sum of them can overflow.
ghost use Rattle.std.specs.Prelude.{◌≡◌, ◌≤◌, length};
ghost use mathlib.Core.List.{◌++◌, flat_map};
ghost use Rattle.std.proofs.lemmas.List.Edits.{sets};
ghost use Rattle.fields.specs.Fields.{bytes_of};
ghost use Rattle.table.specs.Writing.{bytes_of_row, bytes_of_table};

use crate::{Row, Table};

// Writes a table to the front of the buffer.
pub(crate) fn put(buffer: &mut [u8], table: &Table)
    requires { (table.now.cores ≤ 8) × (table.now.n ≤ 32) }
    ensures { buffer.new ≡ sets buffer.old 0 (bytes_of_table table.now) }
{
    let m = table.cores as usize;
    let n = table.n as usize;
    put_head(buffer, table.format, table.cycle, table.cores);
    put_boards(buffer, &table.boards[..m]);
    fields::put(buffer, 6 + m, 1, table.n as u64);
    put_rows(buffer, 7 + m, &table.rows[..n]);
}

// Writes format, cycle and core count.
fn put_head(buffer: &mut [u8], format: u8, cycle: u32, cores: u8)
    ensures { buffer.new ≡ sets buffer.old 0 (bytes_of 1 format ++ bytes_of 4 cycle ++ bytes_of 1 cores) }
{
    fields::put(buffer, 0, 1, format as u64);
    fields::put(buffer, 1, 4, cycle as u64);
    fields::put(buffer, 5, 1, cores as u64);
}

// Writes the board numbers, which begin at place 6.
// (A few lines, private in each crate that has them: one for all would be a public promise.)
fn put_boards(buffer: &mut [u8], boards: &[u8])
    requires { length boards.now ≤ 8 }
    ensures { buffer.new ≡ sets buffer.old 6 (flat_map (bytes_of 1) boards.now) }
{
    for (i, board) in boards.iter().enumerate() {
        fields::put(buffer, 6 + i, 1, *board as u64);
    }
}

// Writes rows from place `at` on.
fn put_rows(buffer: &mut [u8], at: usize, rows: &[Row])
    requires { (at ≤ 15) × (length rows.now ≤ 32) }
    ensures { buffer.new ≡ sets buffer.old at (flat_map bytes_of_row rows.now) }
{
    for (i, row) in rows.iter().enumerate() {
        put_row(buffer, at + 9 * i, row);
    }
}

// Writes a row to place `at`.
fn put_row(buffer: &mut [u8], at: usize, row: &Row)
    requires { at ≤ 303 }
    ensures { buffer.new ≡ sets buffer.old at (bytes_of_row row.now) }
{
    fields::put(buffer, at, 2, row.tank as u64);
    fields::put(buffer, at + 2, 2, row.cost as u64);
    fields::put(buffer, at + 4, 2, row.period as u64);
    fields::put(buffer, at + 6, 2, row.phase as u64);
    fields::put(buffer, at + 8, 1, row.kind as u64);
}
