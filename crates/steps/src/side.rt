// The two addresses of a packet, of which an edit changes one.
ghost use Rattle.std.specs.Prelude.{◌≡◌, ◌+◌, ◌≤◌};
ghost use Rattle.steps.specs.Sides.{side_of, placed};

use verdicts::Verdict;

#[derive(Clone, Copy, PartialEq, Eq)]
pub enum Side {
    Source,
    Destination,
}

// A caller names it by a number: 0 is the source, 1 the destination.
impl TryFrom<u32> for Side {
    type Error = Verdict;

    ghost try_from_gives = { λ n r. r ≡ side_of n };

    #[inline(always)]
    fn try_from(side: u32) -> Result<Self, Verdict> {
        match side {
            0 => Ok(Side::Source),
            1 => Ok(Side::Destination),
            _ => Err(Verdict::Place),
        }
    }
}

impl Side {
    // Where its address stands, of two that stand one behind the other from a place on.
    #[inline(always)]
    pub fn place(self, from: usize, size: usize) -> usize
        requires { from + size ≤ 65535 }
        ensures { result ≡ placed self from size }
    {
        match self {
            Side::Source => from,
            Side::Destination => from + size,
        }
    }
}
