// What the edits have in common: the packets that all but the lifetime's refuse, whether ICMP is blank, and fields
// updated and written.
#![tactic(auto)]

mod blank;
mod change;
mod side;
mod update;

ghost use Rattle.std.specs.Prelude.{◌≡◌, not, ◌&&◌};
ghost use Rattle.wire.specs.Outer.{four};
ghost use Rattle.wire.specs.Inner.{silent_of};
ghost use Rattle.steps.specs.Steps.{editable_of};

pub use blank::blanks;
pub use change::Change;
pub use side::Side;
pub use update::{put_message, raised, renewed};
use verdicts::Verdict;
use wire::{Family, Message, Packet};

// The message that an edit may change, or the first refusal of a packet that no edit of a message takes: of its shape,
// or of UDP over IPv6 without a sum.
#[inline(always)]
pub fn editable(packet: &[u8]) -> Result<Message, Verdict>
    ensures { result ≡ editable_of packet.now }
{
    let m = wire::whole(packet)?;
    if missing(&Packet::new(packet, m)) {
        return Err(Verdict::Missing);
    }
    Ok(m)
}

// Whether a message is UDP's over IPv6 with the field 0000, which must not be.
#[inline(always)]
fn missing(packet: &Packet) -> bool
    ensures { result ≡ (silent_of packet.now && not (four packet.now)) }
{
    match packet.message().family {
        Family::Four => false,
        Family::Six => packet.silent(),
    }
}
