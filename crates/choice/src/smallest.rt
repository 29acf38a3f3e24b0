// The smallest of some keys.
ghost use Rattle.std.specs.Prelude.{◌+◌, ◌≤◌, length};
ghost use Rattle.choice.specs.Keys.{key_in, Smallest, OneKeyMore};

use crate::NOT_READY;

// The k smallest of some keys and one more, in order: the largest number where there are fewer. While there are fewer keys than places, the last place that
// counts is the first that none has taken. It is not inlined: with the bound of k in sight the compiler unrolls the search, and the worst slot takes 680 instructions more.
#[inline(never)]
pub(crate) fn smallest(keys: &[u64], k: usize) -> [u64; 9]
    requires { k ≤ 8 }
    ensures { Smallest (key_in keys.now) (length keys.now) (k + 1) result }
{
    let mut best = [NOT_READY; 9];
    for (i, key) in keys.iter().enumerate() {
        with_key(&mut best, i.min(k), *key);
    }
    best
}

// The smallest with one key more: those that are larger move one place on, up to the last; what stood there is dropped.
#[tactic(auto, using(crate::proofs::Inserted::moving_begins, crate::proofs::Inserted::moves_on))]
fn with_key(best: &mut [u64; 9], last: usize, key: u64)
    requires { last ≤ 8 }
    ensures { OneKeyMore best.old last key best.new }
{
    if best[last] <= key {
        return;
    }
    for at in (0..last).rev() {
        if best[at] <= key {
            best[at + 1] = key;
            return;
        }
        best[at + 1] = best[at];
    }
    best[0] = key;
}
