// Job tables: the reader, the fault of a table value, and the writer.
#![tactic(auto)]

mod boards;
mod faults;
mod head;
mod rows;
mod spelling;

ghost use Rattle.std.specs.Prelude.{◌≡◌, ◌*◌, ltb};
ghost use Rattle.table.specs.Value.{fault_of};
ghost use Rattle.table.specs.Bytes.{reading};
ghost use Rattle.table.specs.Reply.{fault_number, reply_of, fault_said, written_of, number_of};
ghost use Rattle.table.specs.Writing.{writing, buffer_after};

pub use faults::{Fault, Unwritten};

#[derive(Clone, Copy, Default)]
pub struct Row {
    pub tank: u16,
    pub cost: u16,
    pub period: u16,
    pub phase: u16,
    pub kind: u8,
}

// A value may be wild, and its fault is then the answer: so format and kind are plain numbers, and the row count stands beside all 32 places (11, 15, 20).
// The format stands last: there it takes a byte that was padding, and every other field stays where it was.
#[derive(Clone, Copy, Default)]
pub struct Table {
    pub cycle: u32,
    pub cores: u8,
    pub boards: [u8; 8],
    pub n: u8,
    pub rows: [Row; 32],
    pub format: u8,
}

const ROW_LIMIT: u8 = 32;

impl Fault {
    // 01's number of a fault.
    // (A number, since programs and C answer 01's.)
    pub fn number(self) -> u8
        ensures { result ≡ fault_number self }
    {
        self as u8
    }
}

// The table in these bytes, or the first fault met.
#[tactic(auto, using(crate::proofs::Answers::table_in_turn, crate::proofs::Numbers::is_fault), unfolding(facts::specs::Findings::first_found, crate::specs::Bytes::reading))]
pub fn read(bytes: &[u8]) -> Result<Table, Fault>
    ensures { reply_of result ≡ reading bytes.now }
{
    let head = head::read(bytes)?;
    let m = head.cores as usize;
    let boards = boards::read(bytes, m)?;
    let at = 6 + m;
    if bytes.len() <= at {
        return Err(Fault::Ends);
    }
    let row_count = fields::byte(bytes, at);
    if ROW_LIMIT < row_count {
        return Err(Fault::RowCount);
    }
    let n = row_count as usize;
    let read = rows::read(bytes, at + 1, n, head.cycle)?;
    if at + 1 + 9 * n < bytes.len() {
        return Err(Fault::After);
    }
    if is_overfull(head.cores, head.cycle, read.sum) {
        return Err(Fault::Sum);
    }
    let rows = read.rows;
    Ok(Table {
        format: head.format,
        cycle: head.cycle,
        cores: head.cores,
        boards,
        n: row_count,
        rows,
    })
}

// The fault of a table value, which may be wild. By value, as the promise speaks of it; `judge` is lent it.
pub fn fault(table: Table) -> Option<Fault>
    ensures { fault_said result ≡ fault_of table }
{
    judge(&table).err()
}

// Writes the bytes of a table to the front of the buffer, and answers how many they are. The value may be wild.
pub fn write(table: Table, buffer: &mut [u8]) -> Result<usize, Unwritten>
    ensures value { written_of result ≡ writing table buffer.old }
    ensures buffer_after { buffer.new ≡ buffer_after table buffer.old }
{
    if let Err(fault) = judge(&table) {
        return Err(Unwritten::Faulty(fault));
    }
    // Format and cycle have 1 + 4 bytes, the cores 1 + M, the rows 1 + 9n.
    let length = 7 + table.cores as usize + 9 * table.n as usize;
    if buffer.len() < length {
        return Err(Unwritten::NoRoom);
    }
    spelling::put(buffer, &table);
    Ok(length)
}

// Whether a table value has no fault, or else the first.
#[tactic(auto, using(crate::proofs::Value::fault_in_turn, crate::proofs::Numbers::is_fault), unfolding(facts::specs::Findings::first_found))]
fn judge(table: &Table) -> Result<(), Fault>
    ensures { number_of result ≡ fault_of table.now }
{
    if head::format_is_unknown(table.format) {
        return Err(Fault::Format);
    }
    if head::is_outside(head::CYCLE_LIMIT, table.cycle) {
        return Err(Fault::Cycle);
    }
    if head::is_outside(head::CORE_LIMIT, table.cores as u32) {
        return Err(Fault::Cores);
    }
    boards::judge(&table.boards[..table.cores as usize])?;
    if ROW_LIMIT < table.n {
        return Err(Fault::RowCount);
    }
    let sum = rows::judge(&table.rows[..table.n as usize], table.cycle)?;
    if is_overfull(table.cores, table.cycle, sum) {
        return Err(Fault::Sum);
    }
    Ok(())
}

// Whether the quanta that rows take in a cycle are more than the cores have: their sum is above M·L.
fn is_overfull(cores: u8, cycle: u32, sum: u64) -> bool
    ensures { result ≡ ltb (cores * cycle) sum }
{
    let quanta = cores as u64 * cycle as u64;
    quanta < sum
}
