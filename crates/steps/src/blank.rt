// Whether an ICMP message, its field aside, is all zeros: the one thing for which an edit reads more than it changes.
ghost use Rattle.std.specs.Prelude.{◌≡◌, ◌&&◌, ◌||◌, ◌+◌, ◌≤◌, eqb, length};
ghost use Rattle.wire.specs.Bytes.{put};
ghost use Rattle.wire.specs.Inner.{protocol_of, end_of, body_of};
ghost use Rattle.kept.specs.Edits.{all_zero, blank};

use wire::Packet;

// Whether ICMP is blank before new bytes are written from a place on, or would be after it: all else is zeros, and so
// are the old bytes or the new ones.
pub fn blanks(packet: &Packet, at: usize, new: &[u8]) -> bool
    requires { (body_of packet.now ≤ at) × (at + length new.now ≤ end_of packet.now) }
    ensures { result ≡ (eqb (protocol_of packet.now) 1 && (blank packet.now packet.now || blank packet.now (put packet.now at new.now))) }
{
    let bytes = packet.bytes();
    let m = packet.message();
    if m.protocol != wire::ICMP {
        return false;
    }
    if !zeros(&bytes[m.start..m.field]) {
        return false;
    }
    if !zeros(&bytes[m.field + 2..at]) {
        return false;
    }
    let next = at + new.len();
    if !zeros(&bytes[next..m.end]) {
        return false;
    }
    // kept: with `&&` and `||` in place of these tests the proof was tried, and it did not close
    if zeros(&bytes[at..next]) {
        return true;
    }
    zeros(new)
}

fn zeros(bytes: &[u8]) -> bool
    ensures { result ≡ all_zero bytes.now }
{
    bytes.iter().all(|b| *b == 0)
}
