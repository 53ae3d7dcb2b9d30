// What answers are made of, as it is printed.
ghost use Rattle.std.specs.Prelude.{◌<◌};

use std::fmt;
use sums::Partial;
use verdicts::Verdict;

// A verdict by its number.
#[derive(Clone, Copy)]
pub struct Number(pub Verdict);

impl fmt::Display for Number {
    fn fmt<W: fmt::Write>(&self, f: &mut fmt::Formatter<W>) -> fmt::Result {
        write!(f, "{}", u8::from(self.0))
    }
}

// A verdict, and what stands behind it.
#[derive(Clone, Copy)]
pub struct Outcome<T>(pub Verdict, pub T);

impl<T: Drop> Outcome<T> {
    // Of a call's answer; beside a refusal stands what is given.
    pub fn of(answer: Result<T, Verdict>, beside: T) -> Self {
        match answer {
            Ok(value) => Outcome(Verdict::Good, value),
            Err(verdict) => Outcome(verdict, beside),
        }
    }
}

impl<T: fmt::Display> fmt::Display for Outcome<T> {
    fn fmt<W: fmt::Write>(&self, f: &mut fmt::Formatter<W>) -> fmt::Result {
        write!(f, "{} {}", Number(self.0), self.1)
    }
}

// A partial sum: its fold and its length.
#[derive(Clone, Copy)]
pub struct Sum(pub Partial);

impl fmt::Display for Sum {
    fn fmt<W: fmt::Write>(&self, f: &mut fmt::Formatter<W>) -> fmt::Result {
        write!(f, "{} {}", self.0.fold.0, self.0.length)
    }
}

// The digest of some bytes.
#[derive(Clone, Copy)]
pub struct Digest(u32);

impl Digest {
    pub fn of(bytes: &[u8]) -> Self {
        Digest(bytes.iter().fold(0, |h, b| step(h, *b)))
    }
}

fn step(h: u32, b: u8) -> u32
    ensures { result < 4294967291 }
{
    ((u64::from(h) * 257 + u64::from(b) + 1) % 4294967291) as u32
}

impl fmt::Display for Digest {
    fn fmt<W: fmt::Write>(&self, f: &mut fmt::Formatter<W>) -> fmt::Result {
        write!(f, "{}", self.0)
    }
}
