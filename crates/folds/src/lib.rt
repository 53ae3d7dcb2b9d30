// Folds, fields and partial sums: RFC 1071's sum of some bytes, joined sums, and RFC 1624's update.
//
// Every public function takes any input, but for `join_within`, and its promise is one equation.
#![tactic(auto)]

ghost use Rattle.std.specs.Prelude.{◌≡◌, ◌+◌, ◌≤◌};
ghost use Rattle.sums.specs.Total.{weigh};
ghost use Rattle.sums.specs.Fold.{fold, field_of};
ghost use Rattle.sums.specs.Partials.{partial_of, joined, join_of, longest, swap_if};
ghost use Rattle.sums.specs.Update.{updated};

use sums::{Field, Fold, Partial, Unjoined};
use verdicts::Verdict;

// The fold of a total.
pub fn fold_of(t: u64) -> Fold
    ensures { result.0 ≡ fold t }
{
    if t == 0 {
        return Fold(0);
    }
    Fold(((t - 1) % 65535 + 1) as u16)
}

// The field of a fold.
pub fn field_of(f: Fold) -> Field
    ensures { result.0 ≡ field_of f.0 }
{
    Field(65535 - f.0)
}

// The field after the old bytes' fold gave way to the new bytes': RFC 1624's equation 3, but 0000 where that answers
// FFFF. So it is a remainder: each class modulo 65535 has one number under FFFF.
pub fn update(field: Field, old: Fold, new: Fold) -> Field
    ensures { result.0 ≡ updated field.0 old.0 new.0 }
{
    let t = u32::from(field.0) + u32::from(old.0) + u32::from(65535 - new.0);
    Field((t % 65535) as u16)
}

// The fold of A's bytes followed by B's, from their folds, where A has an even number of bytes.
pub fn add(a: Fold, b: Fold) -> Fold
    ensures { result.0 ≡ fold (a.0 + b.0) }
{
    fold_of(u64::from(a.0) + u64::from(b.0))
}

// The partial sum of A's bytes followed by B's, or place and A's where the lengths together pass the 64-bit range.
pub fn join(a: Partial, b: Partial) -> Result<Partial, Unjoined>
    ensures { result ≡ join_of a b }
{
    if u64::MAX - a.length < b.length {
        return Err(Unjoined {
            verdict: Verdict::Place,
            left: a,
        });
    }
    Ok(join_within(a, b))
}

// The same for sister crates, where the lengths are known to stay within the range.
pub fn join_within(a: Partial, b: Partial) -> Partial
    requires { a.length + b.length ≤ longest }
    ensures { result ≡ joined a b }
{
    let second = aligned(a.length % 2 == 1, b.fold);
    Partial {
        fold: add(a.fold, second),
        length: a.length + b.length,
    }
}

// The partial sum of some bytes, any number of them.
pub fn sum(bytes: &[u8]) -> Partial
    ensures { result ≡ partial_of bytes.now }
{
    Partial {
        fold: fold_at(bytes, false),
        length: bytes.len() as u64,
    }
}

// The fold of a stretch, each byte counted by its position in a block: odd says whether it starts at an odd one. At
// an odd one it is counted low byte first, as the sum does; for an even one the fold's two bytes are exchanged.
pub fn fold_at(bytes: &[u8], odd: bool) -> Fold
    ensures { result.0 ≡ fold (weigh odd bytes.now) }
{
    aligned(!odd, fold_of(sums::total(bytes, 0)))
}

// A fold, with its two bytes exchanged if what it is added to is odd.
fn aligned(odd: bool, f: Fold) -> Fold
    ensures { result.0 ≡ swap_if odd f.0 }
{
    if odd { Fold(f.0.swap_bytes()) } else { f }
}
