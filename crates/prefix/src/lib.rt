// The prefix of an IPv6 address exchanged in a packet in place (RFC 6296 for prefixes of 48 bits).
//
// The word behind the prefix takes up what the exchange changes, so the address keeps its class modulo 65535 and every
// sum that covers it stays as it was: right stays right, wrong stays wrong, and no field is written. A refused exchange
// changes no byte. Numbers are read and written low byte first, as in the other edits.
#![tactic(auto)]

ghost use Rattle.std.specs.Prelude.{◌≡◌, ◌+◌, ◌≤◌, length};
ghost use Rattle.kept.specs.Prefix.{prefix_of};
ghost use Rattle.prefix.specs.Rest.{six_of, prefix_in};

use steps::{Change, Side};
use verdicts::Verdict;
use wire::{ADDRESS_6, ADDRESSES_6};

const VERSION: u8 = 6;

// A prefix's bytes. The word behind it makes them eight: a number of eight bytes is one of six, and so many times a word.
const PREFIX: usize = 6;

const WORDS: u64 = 281474976710656;

// Exchanges the prefix of an address: side 0 is the source, 1 the destination.
pub fn exchange_prefix(packet: &mut [u8], side: u32, expected: &[u8], new: &[u8]) -> Verdict
    ensures { (result, packet.new) ≡ prefix_of packet.old side expected.now new.now }
{
    if packet.len() == 0 {
        return Verdict::Cut;
    }
    if packet[0] >> 4 != VERSION {
        return Verdict::Version;
    }
    match steps::editable(packet) {
        Err(v) => v,
        Ok(_) => match Side::try_from(side) {
            Err(v) => v,
            Ok(side) => exchange(packet, side.place(ADDRESSES_6, ADDRESS_6), expected, new),
        },
    }
}

// The same of the address at a place. Whatever is read is read before the first write.
fn exchange(packet: &mut [u8], at: usize, expected: &[u8], new: &[u8]) -> Verdict
    requires { at + 16 ≤ length packet.old }
    ensures { (result, packet.new) ≡ prefix_in packet.old at expected.now new.now }
{
    if expected.len() != PREFIX {
        return Verdict::Place;
    }
    if new.len() != PREFIX {
        return Verdict::Place;
    }
    let end = at + 8;
    let address = sums::le8(&packet[at..end], 0);
    if address % WORDS != le6(expected) {
        return Verdict::Place;
    }
    if address / WORDS == 65535 {
        return Verdict::Place;
    }
    let word = Change::between(le6(new), address);
    writes::copy::<PREFIX>(packet, at, new, 0);
    writes::put_low(packet, at + PREFIX, word.by);
    Verdict::Good
}

// The number of a prefix.
fn le6(s: &[u8]) -> u64
    requires { length s.now ≡ 6 }
    ensures { result ≡ six_of s.now }
{
    sums::le4(s, 0) as u64 + 4294967296 * sums::le2(s, 4) as u64
}
