// An address set in a packet whose shape is right. The change of its bytes is one number for both fields, since all
// positions of addresses are even.
ghost use Rattle.std.specs.Prelude.{◌≡◌, ◌+◌, ◌%◌, ◌≤◌};
ghost use Rattle.wire.specs.Outer.{addresses_at, address_size};
ghost use Rattle.wire.specs.Inner.{Holds};
ghost use Rattle.kept.specs.Edits.{Addressed};
ghost use Rattle.edit.specs.Rest.{address_in, address_on};

use crate::header::put_header;
use cover::fours;
use steps::{Change, Side, put_message, renewed};
use verdicts::Verdict;
use wire::{ADDRESS_4, ADDRESS_6, ADDRESSES_4, ADDRESSES_6, Family, HEADER_FIELD, Message};

// Sets the address on a side of a packet with that message. The family is asked for first: so LLVM tells it once (123
// instructions, and 132 if the side is). kept: the writers take bytes and message side by side, as in `stretch`
pub fn set_side(packet: &mut [u8], m: Message, side: u32, address: &[u8]) -> Verdict
    requires { Holds packet.old m }
    ensures { (result, packet.new) ≡ address_on packet.old side address.now }
{
    match m.family {
        Family::Four => set_on::<ADDRESS_4>(packet, m, ADDRESSES_4, side, address),
        Family::Six => set_on::<ADDRESS_6>(packet, m, ADDRESSES_6, side, address),
    }
}

// The same where the family's addresses begin at a place.
#[inline(always)]
fn set_on<const N: usize>(
    packet: &mut [u8],
    m: Message,
    from: usize,
    side: u32,
    address: &[u8],
) -> Verdict
    requires holds { Holds packet.old m }
    requires size { (from ≡ addresses_at packet.old) × (N ≡ address_size packet.old) × (N % 4 ≡ 0) × (from + N ≤ 65535) }
    ensures { (result, packet.new) ≡ address_on packet.old side address.now }
{
    match Side::try_from(side) {
        Err(v) => v,
        Ok(side) => set::<N>(packet, m, side.place(from, N), address),
    }
}

// Sets the address at a place. The header's field is updated where there is one, and the message's where it covers the
// addresses and is in use.
#[inline(always)]
fn set<const N: usize>(packet: &mut [u8], m: Message, at: usize, address: &[u8]) -> Verdict
    requires holds { Holds packet.old m }
    requires place { Addressed packet.old at N }
    requires size { (N ≡ address_size packet.old) × (N % 4 ≡ 0) }
    ensures { (result, packet.new) ≡ address_in packet.old at address.now }
{
    let Some(new) = address.as_array::<N>() else {
        return Verdict::Place;
    };
    let d = Change::between(fours(&packet[at..at + N], 0, 0), fours(new, 0, 0));
    let header = renewed(packet, HEADER_FIELD, d, false);
    let message = renewed(packet, m.field, d, m.protocol == wire::UDP);
    let quiet = wire::silent(packet, m);
    writes::put(packet, at, *new);
    put_header(packet, m.family, header);
    if m.pseudo {
        put_message(packet, m.field, quiet, message);
    }
    Verdict::Good
}
