// What keeps a table from being read or written. The enum stands apart from the function `fault`: in one module their names may not differ in case alone.
// Why a table is refused, with 01's number.
#[derive(Clone, Copy, PartialEq, Eq)]
pub enum Fault {
    Ends = 10,
    Format = 11,
    Cycle = 12,
    Cores = 13,
    Boards = 14,
    RowCount = 15,
    Tanks = 16,
    Cost = 17,
    Weight = 18,
    Period = 19,
    Kind = 20,
    After = 21,
    Sum = 22,
}

// Why a table is not written.
#[derive(Clone, Copy, PartialEq, Eq)]
pub enum Unwritten {
    Faulty(Fault),
    NoRoom,
}
