// Whoever keeps a trace: adds a slot to it and to its summary.
#![tactic(auto)]

// The end of a trace: how many slots it has, where its records end, and how many of them name each row. Only this crate makes one.
#[derive(Clone, Copy)]
pub struct End {
    slots: u32,
    place: usize,
    quanta: [u32; 32],
}
