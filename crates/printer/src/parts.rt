// The parts of the input: the table with its length, the slots to run, and the k list with its length.
ghost use Rattle.std.specs.Prelude.{◌≡◌, ◌<◌};
ghost use Rattle.printer.specs.Input.{unfit, slots_asked, slots_place, held_back, free_in};
ghost use Rattle.printer.specs.Writing.{slot_below};

use counts::Slot;

const INPUT_LIMIT: usize = 65_536;

const SLOT_LIMIT: u16 = 4_096;

// Whether `input` is not to be printed: it is not as long as its parts say, or a number is above its limit.
#[tactic(auto, unfolding(crate::specs::Input::unfit))]
pub(crate) fn is_unfit(input: &[u8]) -> bool
    ensures { result ≡ unfit input.now }
{
    let at = slots_place(input);
    let slots = fields::half(input, at);
    let listed = fields::half(input, at + 2);
    input.len() != at + 4 + listed as usize
        || INPUT_LIMIT < input.len()
        || SLOT_LIMIT < slots
        || slots < listed
}

// How many slots are to be run.
pub(crate) fn slots(input: &[u8]) -> u16
    ensures { result ≡ slots_asked input.now }
{
    fields::half(input, slots_place(input))
}

// How many cores are free in a slot: as the k list says, and past it all but the one that is held back.
#[tactic(auto, unfolding(crate::specs::Input::listed_or))]
pub(crate) fn free(input: &[u8], cores: u8, slot: Slot) -> u8
    requires { slot.0 < slot_below }
    ensures { result ≡ free_in input.now cores slot.0 }
{
    let at = slots_place(input);
    let listed = fields::half(input, at + 2) as usize;
    let number = slot.time() as usize;
    if number < listed {
        fields::byte(input, at + 4 + number)
    } else {
        held_back(cores)
    }
}

// One core is held back, for the box's own work, but not the only one.
fn held_back(cores: u8) -> u8
    ensures { result ≡ held_back cores }
{
    if cores == 1 {
        1
    } else {
        cores.saturating_sub(1)
    }
}

// Where the slots to run stand: behind the table.
fn slots_place(input: &[u8]) -> usize
    ensures { (result ≡ slots_place input.now) × (result < slot_below) }
{
    2 + fields::half(input, 0) as usize
}
