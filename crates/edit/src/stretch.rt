// A stretch of the body set in a packet whose shape is right.
ghost use Rattle.std.specs.Prelude.{◌≡◌, ◌+◌, ◌-◌, ◌≤◌, length};
ghost use Rattle.wire.specs.Bytes.{put};
ghost use Rattle.wire.specs.Inner.{start_of, end_of, body_of, Holds};
ghost use Rattle.kept.specs.Update.{message_after};
ghost use Rattle.edit.specs.Rest.{stretch_in};

use steps::{Change, blanks, put_message, renewed};
use verdicts::Verdict;
use wire::{Message, Packet};

// Sets bytes in the body of a packet with that message.
// kept: the writers take bytes and message side by side, since in a type with `Holds` each write would have to show it anew
pub fn set_within(packet: &mut [u8], m: Message, place: usize, bytes: &[u8]) -> Verdict
    requires { Holds packet.old m }
    ensures { (result, packet.new) ≡ stretch_in packet.old place bytes.now }
{
    let body = m.body;
    let room = m.end - body;
    if room < bytes.len() {
        return Verdict::Place;
    }
    if room - bytes.len() < place {
        return Verdict::Place;
    }
    if bytes.len() == 0 {
        return Verdict::Good;
    }
    let at = body + place;
    if blanks(&Packet::new(packet, m), at, bytes) {
        return Verdict::Blank;
    }
    put_stretch(packet, m, at, bytes);
    Verdict::Good
}

// Writes new bytes into the body and updates the message's field, counting them by their position in the message.
fn put_stretch(packet: &mut [u8], m: Message, at: usize, bytes: &[u8])
    requires holds { Holds packet.old m }
    requires within { (body_of packet.old ≤ at) × (at + length bytes.now ≤ end_of packet.old) }
    ensures { packet.new ≡ message_after packet.old (at - start_of packet.old) at bytes.now (put packet.old at bytes.now) }
{
    let end = at + bytes.len();
    let odd = (at - m.start) % 2 == 1;
    let d = Change::of(&packet[at..end], bytes).aligned(odd);
    let message = renewed(packet, m.field, d, m.protocol == wire::UDP);
    let quiet = wire::silent(packet, m);
    writes::put_bytes(packet, at, bytes);
    put_message(packet, m.field, quiet, message);
}
