// Values written into bytes, one part behind the other. Places are bounded only so that no sum of them wraps; they stand beside the bytes, since past the end nothing is written.
ghost use Rattle.std.specs.Prelude.{◌≡◌, ◌<◌, length};
ghost use mathlib.Core.List.{flat_map};
ghost use Rattle.std.proofs.lemmas.List.Edits.{sets};
ghost use Rattle.fields.specs.Fields.{bytes_of};
ghost use Rattle.table.specs.Writing.{bytes_of_row};
ghost use Rattle.values.specs.Values.{bytes_of_quanta, bytes_of_value, bytes_of_placement, bytes_of_state};

use cores::Placement;
use counts::Quanta;
use dispatcher::State;
use table::{Row, Table};

pub(crate) fn quanta(bytes: &mut [u8], at: usize, quanta: &[Quanta; 32])
    requires { at < 600 }
    ensures { bytes.new ≡ sets bytes.old at (bytes_of_quanta quanta.now) }
{
    for (i, given) in quanta.iter().enumerate() {
        fields::put(bytes, at + 8 * i, 8, given.count());
    }
}

pub(crate) fn table(bytes: &mut [u8], table: Table)
    ensures { bytes.new ≡ sets bytes.old 0 (bytes_of_value table) }
{
    fields::put(bytes, 0, 1, table.format as u64);
    fields::put(bytes, 1, 4, table.cycle as u64);
    fields::put(bytes, 5, 1, table.cores as u64);
    eight(bytes, 6, &table.boards);
    fields::put(bytes, 14, 1, table.n as u64);
    rows(bytes, 15, &table.rows);
}

pub(crate) fn placement(bytes: &mut [u8], at: usize, placed: Placement)
    requires { at < 600 }
    ensures { bytes.new ≡ sets bytes.old at (bytes_of_placement placed) }
{
    fields::put(bytes, at, 1, placed.count as u64);
    eight(bytes, at + 1, &placed.rows);
    eight(bytes, at + 9, &placed.cores);
}

pub(crate) fn state(bytes: &mut [u8], state: State)
    ensures { bytes.new ≡ sets bytes.old 0 (bytes_of_state state) }
{
    table(bytes, state.table);
    fields::put(bytes, 303, 8, state.time.time());
    fields::put(bytes, 311, 1, state.stopped as u64);
    quanta(bytes, 312, &state.quanta);
    placement(bytes, 568, state.last);
}

fn rows(bytes: &mut [u8], at: usize, rows: &[Row; 32])
    requires { at < 600 }
    ensures { bytes.new ≡ sets bytes.old at (flat_map bytes_of_row rows.now) }
{
    for (i, one) in rows.iter().enumerate() {
        row(bytes, at + 9 * i, one);
    }
}

// The writer of tables has its own, which is private there.
fn row(bytes: &mut [u8], at: usize, row: &Row)
    requires { at < 1000 }
    ensures { bytes.new ≡ sets bytes.old at (bytes_of_row row.now) }
{
    fields::put(bytes, at, 2, row.tank as u64);
    fields::put(bytes, at + 2, 2, row.cost as u64);
    fields::put(bytes, at + 4, 2, row.period as u64);
    fields::put(bytes, at + 6, 2, row.phase as u64);
    fields::put(bytes, at + 8, 1, row.kind as u64);
}

// Eight numbers of a byte each.
// (A few lines, private in each crate that has them: one for all would be a public promise.)
fn eight(bytes: &mut [u8], at: usize, numbers: &[u8; 8])
    requires { at < 700 }
    ensures { bytes.new ≡ sets bytes.old at (flat_map (bytes_of 1) numbers.now) }
{
    for (i, number) in numbers.iter().enumerate() {
        fields::put(bytes, at + i, 1, *number as u64);
    }
}
