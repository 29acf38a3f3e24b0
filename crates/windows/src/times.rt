// What the questions about windows are answered with.

use counts::Slot;

// A window, with its group deadline. The bit is a number: the next start is d - b.
#[derive(Clone, Copy, PartialEq, Eq)]
pub struct Window {
    pub start: Slot,
    pub deadline: Slot,
    pub bit: u8,
    pub group: Slot,
}

// A window's end: when a quantum is due, and the bit.
#[derive(Clone, Copy, PartialEq, Eq)]
pub struct Due {
    pub deadline: Slot,
    pub bit: u8,
}
