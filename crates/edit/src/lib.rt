// Edits of a packet in place: the lifetime lowered, an address set, a stretch of the body set.
//
// The sum fields are updated from the changed bytes and the old fields (RFC 1624), never worked out anew: what was
// right stays right without the packet being read again, and what was wrong stays wrong. A refused edit changes no
// byte. Whatever is read is read before the first write.
#![tactic(auto)]

mod address;
mod header;
mod lifetime;
mod stretch;

ghost use Rattle.std.specs.Prelude.{◌≡◌};
ghost use Rattle.kept.specs.Edits.{lifetime_of, address_of, stretch_of};

use address::set_side;
use lifetime::lower;
use stretch::set_within;
use verdicts::Verdict;

// Lowers the lifetime by one. Spent if it is 0 or 1. It stands in the header, so the packet need not have a message: a
// fragment's is lowered too.
pub fn lower_lifetime(packet: &mut [u8]) -> Verdict
    ensures { (result, packet.new) ≡ lifetime_of packet.old }
{
    match wire::outer(packet) {
        Err(v) => v,
        Ok(h) => lower(packet, h.family),
    }
}

// Sets an address: side 0 is the source, 1 the destination.
pub fn set_address(packet: &mut [u8], side: u32, address: &[u8]) -> Verdict
    ensures { (result, packet.new) ≡ address_of packet.old side address.now }
{
    match steps::editable(packet) {
        Err(v) => v,
        Ok(m) => set_side(packet, m, side, address),
    }
}

// Sets the bytes of the body from a place on, which counts from the body's first byte.
pub fn set_stretch(packet: &mut [u8], place: usize, bytes: &[u8]) -> Verdict
    ensures { (result, packet.new) ≡ stretch_of packet.old place bytes.now }
{
    match steps::editable(packet) {
        Err(v) => v,
        Ok(m) => set_within(packet, m, place, bytes),
    }
}
