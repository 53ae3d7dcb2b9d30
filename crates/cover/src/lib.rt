// What the two sum fields of a packet cover: the totals that judge, mender and edits go by.
//
// They are counted low byte first and never folded: that is 256 times the total, for its fold. Headers and addresses
// are short, so they are added up in straight lines.
#![tactic(auto)]

ghost use Rattle.std.specs.Prelude.{◌≡◌, ◌+◌, ◌*◌, ◌-◌, ◌%◌, ◌≤◌, length};
ghost use Rattle.sums.specs.Total.{total};
ghost use Rattle.sums.specs.Fold.{fold};
ghost use Rattle.sums.specs.Low.{rest_at};
ghost use Rattle.wire.specs.Inner.{before_of};

use sums::{carry, le4, le8};
use wire::{Family, Packet};

// The total of an IPv4 header: 20 bytes, then its options.
pub fn header_total(header: &[u8]) -> u64
    requires { (20 ≤ length header.now) × (length header.now % 4 ≡ 0) }
    ensures { fold result ≡ fold (256 * total header.now) }
{
    let first = carry(le8(header, 0), le8(header, 8));
    fours(header, 20, carry(first, le4(header, 16) as u64))
}

// The total of some bytes from a place on, added to a seed: four at a turn, as options are few.
pub fn fours(b: &[u8], from: usize, seed: u64) -> u64
    requires { (from ≤ length b.now) × ((length b.now - from) % 4 ≡ 0) }
    ensures { fold result ≡ fold (seed + rest_at b.now from) }
{
    let mut t = seed;
    for word in b[from..].as_chunks::<4>().0 {
        t = carry(t, u64::from(u32::from_le_bytes(*word)));
    }
    t
}

// The total of a message's pseudo-header, or of nothing where it has none: the seed for that of the message.
pub fn pseudo_total(packet: &Packet) -> u64
    ensures { fold result ≡ fold (256 * total (before_of packet.now)) }
{
    let bytes = packet.bytes();
    let m = packet.message();
    if !m.pseudo {
        return 0;
    }
    let rest = ((m.end - m.start) as u64 + m.protocol as u64) * 256;
    match m.family {
        Family::Four => carry(
            rest,
            le8(&bytes[wire::ADDRESSES_4..wire::ADDRESSES_4_END], 0),
        ),
        Family::Six => sums::add::<32>(&bytes[wire::ADDRESSES_6..wire::ADDRESSES_6_END], 0, rest),
    }
}
