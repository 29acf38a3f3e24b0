// Which core each picked row runs on. Sets of cores and of rows are marks, one for each number from 0 on.
#![tactic(auto)]

mod turns;

ghost use Rattle.std.specs.Prelude.{◌≡◌, ◌≤◌, length, count_by};
ghost use Rattle.trace.specs.Record.{marked};
ghost use Rattle.cores.specs.Placement.{nobody, ran_marks};
ghost use Rattle.cores.specs.Cores.{placed_for};
ghost use Rattle.cores.specs.Fault.{below, misremembers};
ghost use Rattle.cores.specs.Sets.{size, names_past, first_cores};

// So many rows, and the core of each: what a slot answers, and what the state remembers of it. Places past the count mean nothing.
// (Arrays with a count and no slices: a state holds it from slot to slot, in fixed memory.)
#[derive(Clone, Copy, PartialEq, Eq)]
pub struct Placement {
    pub count: u8,
    pub rows: [u8; 8],
    pub cores: [u8; 8],
}

impl Placement {
    // Nobody is placed.
    pub fn nobody() -> Placement
        ensures { result ≡ nobody }
    {
        Placement {
            count: 0,
            rows: [0; 8],
            cores: [0; 8],
        }
    }

    // Whether this is no memory of a slot on so many cores with n rows. Every byte has a mark, so that wild cores need no test of their own; rows that rise
    // stand in one place each.
    pub fn is_faulty(self, cores: u8, n: u8) -> bool
        ensures { result ≡ misremembers self (below n) cores }
    {
        let count = self.count as usize;
        if 8 < count || cores < self.count {
            return true;
        }
        let mut used = [false; 256];
        let mut least: u16 = 0;
        for i in 0..count {
            let core = self.cores[i];
            let row = self.rows[i];
            if cores <= core || used[core as usize] || n <= row || (row as u16) < least {
                return true;
            }
            used[core as usize] = true;
            least = row as u16 + 1;
        }
        false
    }

    // The rows that ran, as marks. The memory may be wild: a number that no row can have is not marked.
    pub fn ran(self) -> [bool; 32]
        ensures { result ≡ ran_marks self }
    {
        let mut marks = [false; 32];
        let count = self.count.min(8) as usize;
        for row in &self.rows[..count] {
            if *row < 32 {
                marks[*row as usize] = true;
            }
        }
        marks
    }
}

// How many cores a set names.
pub fn how_many(free: [bool; 32]) -> u8
    ensures { (result ≡ size free) × (result ≤ 32) }
{
    how_many_in(&free)
}

// Whether a set names a core that is not below the number of cores. It goes on after the first, so that many marks are counted at a time.
pub fn names_past(free: [bool; 32], cores: u8) -> bool
    ensures { result ≡ names_past cores free }
{
    let least = cores.min(32) as usize;
    0 < how_many_in(&free[least..])
}

// How many marks are set. (One line, as in `trace`.)
fn how_many_in(marks: &[bool]) -> u8
    requires { length marks.now ≤ 32 }
    ensures { result ≡ count_by (λ mark. mark) marks.now }
{
    marks.iter().map(|mark| *mark as u8).sum()
}

// The first k cores.
pub fn first(k: u8) -> [bool; 32]
    ensures { result ≡ first_cores k }
{
    let mut free = [false; 32];
    for (i, mark) in free.iter_mut().enumerate() {
        *mark = i < k as usize;
    }
    free
}

// The cores of the picked rows: as few of them move as can be. The rows are lent, since a set of them by value costs a slot hundreds of instructions.
pub fn place(rows: &[u8], free: [bool; 32], last: Placement) -> Placement
    ensures { result ≡ placed_for last (marked free) rows.now }
{
    let kept = turns::keep(rows, &free, &last);
    turns::in_turn(rows, &kept)
}
