// Mending: a packet's sum fields are set fresh, and nothing else is touched.
//
// A mended packet is judged good whatever its bytes say, so mend only what was made or checked here: a relay that
// mends what it received puts a good sum on damaged bytes. Fields are worked out and written low byte first.
#![tactic(auto)]

ghost use Rattle.std.specs.Prelude.{◌≡◌, true, ◌&&◌, ◌+◌, ◌%◌, ◌≤◌, eqb, length};
ghost use Rattle.sums.specs.Total.{weigh, total};
ghost use Rattle.sums.specs.Fold.{fold, swap};
ghost use Rattle.wire.specs.Bytes.{part, put_word};
ghost use Rattle.wire.specs.Outer.{four};
ghost use Rattle.wire.specs.Inner.{start_of, length_of, field_at, silent_of, Holds};
ghost use Rattle.cover.specs.Sums.{message_total};
ghost use Rattle.mend.specs.Fresh.{fresh_header, fresh_message};
ghost use Rattle.mend.specs.Mend.{mended_header, mended_message, mend_of};

use sums::{carry, le2, le8};
use verdicts::Verdict;
use wire::{Family, Message, Packet};

// Sets the IPv4 header's field and the message's. Refuses a packet whose shape is wrong and leaves it as it was.
#[tactic(auto, using(crate::proofs::Outcomes::mend_refused, crate::proofs::Outcomes::mend_done))]
pub fn mend(packet: &mut [u8]) -> Verdict
    ensures { (result, packet.new) ≡ mend_of packet.old }
{
    match wire::whole(packet) {
        Err(v) => v,
        Ok(m) => mend_whole(packet, m),
    }
}

// Sets both fields. One call behind all the tests: LLVM takes in no second one there.
// kept: the writers take bytes and message side by side, since in a type with `Holds` each write would have to show it anew
fn mend_whole(packet: &mut [u8], m: Message) -> Verdict
    requires { Holds packet.old m }
    ensures { (result ≡ Verdict.Good) × (packet.new ≡ mended_message (mended_header packet.old)) }
{
    mend_header(packet, m);
    mend_message(packet, m);
    Verdict::Good
}

// Sets the IPv4 header's field.
#[inline(always)]
pub fn mend_header(packet: &mut [u8], m: Message)
    requires { Holds packet.old m }
    ensures { packet.new ≡ mended_header packet.old }
{
    match m.family {
        Family::Four => {
            let fresh = fresh_header(&Packet::new(packet, m));
            writes::put_low(packet, wire::HEADER_FIELD, fresh);
        }
        Family::Six => {}
    }
}

// Sets the message's field, but for a UDP field of 0000 over IPv4.
#[inline(always)]
fn mend_message(packet: &mut [u8], m: Message)
    requires { Holds packet.old m }
    ensures { packet.new ≡ mended_message packet.old }
{
    let held = Packet::new(packet, m);
    if kept(&held) {
        return;
    }
    let fresh = fresh_message(&held);
    writes::put_low(packet, m.field, fresh);
}

// Whether a message's field stays: UDP's 0000 over IPv4.
#[inline(always)]
fn kept(packet: &Packet) -> bool
    ensures { result ≡ (silent_of packet.now && four packet.now) }
{
    match packet.message().family {
        Family::Four => packet.silent(),
        Family::Six => false,
    }
}

// The header's field, from what stands around it. That is never 0, as the version isn't.
fn fresh_header(packet: &Packet) -> u16
    requires { four packet.now ≡ true }
    ensures { swap result ≡ fresh_header packet.now }
{
    let bytes = packet.bytes();
    let m = packet.message();
    let before = before_field(&bytes[..wire::HEADER_FIELD]);
    sums::field_low(after_field(&bytes[wire::ADDRESSES_4..m.start], before))
}

// The total of the ten bytes before a header's field.
fn before_field(b: &[u8]) -> u64
    requires { length b.now ≡ 10 }
    ensures { fold result ≡ fold (weigh true b.now) }
{
    carry(le8(b, 0), le2(b, 8) as u64)
}

// That of the bytes behind it, added to a seed: the addresses, then the options.
fn after_field(b: &[u8], seed: u64) -> u64
    requires { (8 ≤ length b.now) × (length b.now % 4 ≡ 0) }
    ensures { fold result ≡ fold (seed + weigh true b.now) }
{
    cover::fours(b, 8, carry(seed, le8(b, 0)))
}

// The message's field: the block is summed whole, and the field taken out again by adding its complement.
#[inline(always)]
fn fresh_message(packet: &Packet) -> u16
    ensures { swap result ≡ fresh_message packet.now }
{
    let m = packet.message();
    let field = le2(packet.bytes(), m.field);
    let before = cover::pseudo_total(packet);
    let whole = sums::total(packet.block(), before);
    let fresh = sums::field_low(carry(whole, (65535 - field) as u64));
    if fresh != 0 {
        return fresh;
    }
    zero_field(packet)
}

// The field where 65535 divides the rest of the block: 0000, but FFFF for UDP and where the rest is zeros alone.
fn zero_field(packet: &Packet) -> u16
    requires { message_total (put_word packet.now (field_at packet.now) 0) % 65535 ≡ 0 }
    ensures { swap result ≡ fresh_message packet.now }
{
    let m = packet.message();
    if m.protocol == wire::UDP {
        return 65535;
    }
    if m.pseudo {
        return 0;
    }
    if blank(packet) { 65535 } else { 0 }
}

// Whether a message is zeros alone, its field aside.
fn blank(packet: &Packet) -> bool
    ensures { result ≡ eqb (total (part (put_word packet.now (field_at packet.now) 0) (start_of packet.now) (length_of packet.now))) 0 }
{
    let bytes = packet.bytes();
    let m = packet.message();
    let before = sums::total(&bytes[m.start..m.field], 0);
    sums::total(&bytes[m.field + 2..m.end], before) == 0
}
