// The verdict on a packet: whether its sums are right, and if not, what is wrong with it first.
//
// Any bytes may be judged. Nothing is changed, nothing of the tail is read, and each covered byte is summed once.
#![tactic(auto)]

ghost use Rattle.std.specs.Prelude.{◌≡◌, Ok};
ghost use Rattle.verdicts.specs.Numbers.{number_of};
ghost use Rattle.wire.specs.Outer.{outer_of};
ghost use Rattle.cover.specs.Sums.{header_sums};
ghost use Rattle.judge.specs.Judge.{judge_of, to_sum_of, message_verdict};

use verdicts::Verdict;
use wire::{Family, Header, Message, Packet};

// The number of the verdict on a packet. Of a judge that is called from two places LLVM makes one function, and
// a number comes back from it in a register, where a verdict would come through memory.
pub fn number(packet: &[u8]) -> u8
    ensures { result ≡ number_of (judge_of packet.now) }
{
    u8::from(judge(packet))
}

// The verdict on a packet.
pub fn judge(packet: &[u8]) -> Verdict
    ensures { result ≡ judge_of packet.now }
{
    match to_sum(packet) {
        Err(v) => v,
        Ok(m) => judge_message(&Packet::new(packet, m)),
    }
}

// The message that is to be summed, or the first refusal before it.
#[inline(always)]
fn to_sum(packet: &[u8]) -> Result<Message, Verdict>
    ensures { result ≡ to_sum_of packet.now }
{
    let header = wire::outer(packet)?;
    if !header_sums(packet, header) {
        return Err(Verdict::HeaderSum);
    }
    let carried = wire::walk(packet, header)?;
    wire::inner(packet, carried)
}

// Whether the header's sum is right, or there is none. A header's total isn't 0: the version isn't.
pub fn header_sums(packet: &[u8], h: Header) -> bool
    requires { Ok h ≡ outer_of packet.now }
    ensures { result ≡ header_sums packet.now }
{
    match h.family {
        Family::Four => cover::header_total(&packet[..h.end]) % 65535 == 0,
        Family::Six => true,
    }
}

// The verdict on a message whose shape is right.
fn judge_message(packet: &Packet) -> Verdict
    ensures { result ≡ message_verdict packet.now }
{
    let m = packet.message();
    if packet.silent() {
        return match m.family {
            Family::Four => Verdict::Unsummed,
            Family::Six => Verdict::Missing,
        };
    }
    let before = cover::pseudo_total(packet);
    if sums::passes(sums::total(packet.block(), before)) {
        Verdict::Good
    } else {
        Verdict::MessageSum
    }
}
