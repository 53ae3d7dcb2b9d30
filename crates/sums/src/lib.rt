// The Internet checksum of RFC 1071 and its update of RFC 1624: what they are (specs/), their laws (proofs/), the one sum
// that the whole library goes by, and what is asked of its totals.
//
// A Fold is what 16-bit addition with end-around carry gives of some bytes, and a Field is its complement, which
// packets carry: two types, so that neither is stored where the other belongs. The calls on them are those of `folds`.
#![tactic(auto)]

mod low;

ghost use Rattle.std.specs.Prelude.{◌≡◌, ◌+◌, ◌%◌, ◌<◌};
ghost use Rattle.sums.specs.Fold.{passes};

pub use low::{add, carry, le2, le4, le8, total};
use verdicts::Verdict;

#[derive(Clone, Copy)]
pub struct Fold(pub u16);

#[derive(Clone, Copy)]
pub struct Field(pub u16);

// A fold, and how many bytes were summed.
#[derive(Clone, Copy)]
pub struct Partial {
    pub fold: Fold,
    pub length: u64,
}

// Sums that can't be joined: the verdict, and the left sum.
#[derive(Clone, Copy)]
pub struct Unjoined {
    pub verdict: Verdict,
    pub left: Partial,
}

// The field, low byte first, of a total that isn't 0: minus the total, modulo 65535.
pub fn field_low(t: u64) -> u16
    ensures { (result < 65535) × ((result + t) % 65535 ≡ 0) }
{
    ((u64::MAX - t) % 65535) as u16
}

// Whether a block with its field in place, whose total is t, passes. A fold is a total too, and so is a total that
// was counted low byte first. One test for both conditions: 0 less 1 wraps to a multiple of 65535.
pub fn passes(t: u64) -> bool
    ensures { result ≡ passes t }
{
    t.wrapping_sub(1) % 65535 == 65534
}
