// The lifetime lowered in a packet whose outer shape is right.
ghost use Rattle.std.specs.Prelude.{◌≡◌, ◌≤◌, length};
ghost use Rattle.wire.specs.Outer.{family_of};
ghost use Rattle.edit.specs.Rest.{lifetime_by, lifetime_in};

use crate::header::put_header;
use steps::raised;
use verdicts::Verdict;
use wire::{Family, HEADER_FIELD};

// Lowers it. IPv4's is covered by the header's sum, and is its word's first byte, so low byte first the change is one
// less. IPv6's no sum covers.
pub fn lower(packet: &mut [u8], family: Family) -> Verdict
    requires long { 20 ≤ length packet.old }
    requires family { family ≡ family_of packet.old }
    ensures { (result, packet.new) ≡ lifetime_in packet.old }
{
    let at = place(family);
    let lifetime = packet[at];
    if lifetime < 2 {
        return Verdict::Spent;
    }
    let field = raised(packet, HEADER_FIELD);
    packet[at] = lifetime - 1;
    put_header(packet, family, field);
    Verdict::Good
}

// Where it stands.
fn place(family: Family) -> usize
    ensures { result ≡ lifetime_by family }
{
    match family {
        Family::Four => wire::LIFETIME_4,
        Family::Six => wire::LIFETIME_6,
    }
}
