// What a log has left from a place on.
ghost use Rattle.std.specs.Prelude.{◌≡◌, ◌%◌, ◌^◌};
ghost use Rattle.log_waits.specs.Left.{left_of};

use crate::row::unused;
use event_log::Place;

// The unused part of the present row and all later rows. The sum is kept in 64 bits; on a valid log it
// does not wrap.
#[tactic(auto, using(crate::proofs::LeftLaws::left_sum_on, crate::proofs::LeftLaws::left_sum_end))]
pub fn clocks_left(clocks: &[u64], at: Place) -> u64
    ensures { result ≡ left_of clocks.now at % 2 ^ 64 }
{
    let mut used = at.used;
    let mut sum: u64 = 0;
    for row in at.row..clocks.len() {
        sum = sum.wrapping_add(unused(clocks[row], used));
        used = 0;
    }
    sum
}
