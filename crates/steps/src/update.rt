// Fields updated and written.
ghost use Rattle.std.specs.Prelude.{◌≡◌, false, ◌+◌, ◌%◌, ◌<◌, ◌≤◌, length};
ghost use Rattle.wire.specs.Bytes.{word_at};
ghost use Rattle.steps.specs.Steps.{Renewed, message_put};

use crate::Change;

// The field at a place after a change, by which it goes down, being a complement. 0000 and FFFF are one number modulo
// 65535: FFFF is UDP's, whose 0000 means no sum, and 0000 any other's (RFC 1624's equation 3, but for its FFFF).
pub fn renewed(packet: &[u8], at: usize, d: Change, udp: bool) -> u16
    requires { at + 1 < length packet.now }
    ensures { Renewed udp (word_at packet.now at) d.by result }
{
    let w = less(sums::le2(packet, at), d);
    if udp {
        return w;
    }
    if w == 65535 {
        return 0;
    }
    w
}

// The same for a change of one less that isn't UDP's, in fewer instructions: the field goes up by one.
pub fn raised(packet: &[u8], at: usize) -> u16
    requires { at + 1 < length packet.now }
    ensures { Renewed false (word_at packet.now at) 65534 result }
{
    let f = sums::le2(packet, at);
    if f < 65534 {
        return f + 1;
    }
    f - 65534
}

// f less a change, modulo 65535, and 65535 for 0.
fn less(f: u16, d: Change) -> u16
    ensures { (1 ≤ result) × ((result + d.by) % 65535 ≡ f % 65535) }
{
    if f > d.by {
        return f - d.by;
    }
    f + (65535 - d.by)
}

// Writes the message's field, unless it is UDP's 0000, which stays.
pub fn put_message(packet: &mut [u8], at: usize, quiet: bool, w: u16)
    requires { at + 1 < length packet.old }
    ensures { packet.new ≡ message_put quiet at packet.old w }
{
    if quiet {
        return;
    }
    writes::put_low(packet, at, w);
}
