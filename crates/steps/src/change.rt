// What new bytes have more than old ones. Numbers are read low byte first: modulo 65535 that is to take each 256 times, so
// what is added up and taken away stays right, and nothing is exchanged on the way.
ghost use Rattle.std.specs.Prelude.{◌≡◌, true, ◌+◌, ◌%◌, ◌≤◌};
ghost use Rattle.sums.specs.Total.{weigh};
ghost use Rattle.sums.specs.Partials.{swap_if};

// So much more, modulo 65535: one number for every field that covers the bytes.
#[derive(Clone, Copy)]
pub struct Change {
    pub by: u16,
    pub ghost reduced: { by ≤ 65534 },
}

impl Change {
    // From one total to another. 2 ^ 64 - 1 is a multiple of 65535, so to add a complement is to take away.
    pub fn between(old: u64, new: u64) -> Change
        ensures { (result.by + old) % 65535 ≡ new % 65535 }
    {
        Change {
            by: (sums::carry(u64::MAX - old, new) % 65535) as u16,
        }
    }

    // From some bytes to others: the complement of the one's total is what the other's begins with.
    pub fn of(old: &[u8], new: &[u8]) -> Change
        ensures { (result.by + weigh true old.now) % 65535 ≡ weigh true new.now % 65535 }
    {
        Change {
            by: (sums::total(new, u64::MAX - sums::total(old, 0)) % 65535) as u16,
        }
    }

    // As it counts where its bytes begin: at an odd position its two bytes are exchanged (RFC 1071, 2 B).
    pub fn aligned(self, odd: bool) -> Change
        ensures { result.by ≡ swap_if odd self.by }
    {
        if odd {
            Change {
                by: self.by % 256 * 256 + self.by / 256,
            }
        } else {
            self
        }
    }
}
