// The shape of a message, protocol by protocol, by the line of the table that the walk leads to.
ghost use Rattle.std.specs.Prelude.{◌≡◌, ◌+◌, ◌≤◌, Ok};
ghost use Rattle.wire.specs.Inner.{inner_of, Carrying};

use crate::bits::{high, wide, word};
use crate::{Carried, Message, Plan};
use verdicts::Verdict;

// Where lengths stand in a message.
pub const DATA_OFFSET: usize = 12;

pub const UDP_LENGTH: usize = 4;

// The field in UDP's header, and where that ends.
pub const UDP_FIELD: usize = 6;

pub const UDP_HEADER: usize = 8;

// ICMP and ICMPv6 say no length of their own: the packet is asked for by the contract alone.
#[inline(always)]
pub fn icmp(packet: &[u8], c: Carried, protocol: u8, plan: Plan) -> Result<Message, Verdict>
    requires carrying { Carrying packet.now c protocol plan }
    requires no_length { (protocol ≡ 6 → ⊥) × (protocol ≡ 17 → ⊥) }
    ensures { result ≡ inner_of packet.now }
{
    if c.declared - c.start < plan.fixed {
        return Err(Verdict::Shape);
    }
    placed(c, protocol, plan, plan.fixed, c.declared)
}

// TCP's data offset says where the body begins, behind the fixed header and inside the message.
#[inline(always)]
pub fn tcp(packet: &[u8], c: Carried, plan: Plan) -> Result<Message, Verdict>
    requires { Carrying packet.now c 6 plan }
    ensures { result ≡ inner_of packet.now }
{
    let start = c.start;
    let length = c.declared - start;
    if length < plan.fixed {
        return Err(Verdict::Shape);
    }
    let body = wide(high(packet[start + DATA_OFFSET])) * 4;
    if body < plan.fixed {
        return Err(Verdict::Shape);
    }
    if length < body {
        return Err(Verdict::Shape);
    }
    placed(c, crate::TCP, plan, body, c.declared)
}

// UDP's length says where the datagram ends, behind the fixed header and inside what is carried.
#[inline(always)]
pub fn udp(packet: &[u8], c: Carried, plan: Plan) -> Result<Message, Verdict>
    requires { Carrying packet.now c 17 plan }
    ensures { result ≡ inner_of packet.now }
{
    let start = c.start;
    let length = c.declared - start;
    if length < plan.fixed {
        return Err(Verdict::Shape);
    }
    let own = word(packet, start + UDP_LENGTH) as usize;
    // mostly they are equal: one test
    if own != length {
        if own < plan.fixed {
            return Err(Verdict::Shape);
        }
        if length < own {
            return Err(Verdict::Shape);
        }
    }
    placed(c, crate::UDP, plan, plan.fixed, start + own)
}

// The message that ends at a place, its body so many bytes behind its start.
#[inline(always)]
fn placed(c: Carried, protocol: u8, plan: Plan, body: usize, end: usize) -> Result<Message, Verdict>
    requires { (c.start + plan.field ≤ c.declared) × (c.start + body ≤ c.declared) }
    ensures { result ≡ Ok (record { family = c.family; start = c.start; end = end; protocol = protocol; field = c.start + plan.field; body = c.start + body; pseudo = plan.pseudo }) }
{
    Ok(Message {
        family: c.family,
        protocol,
        pseudo: plan.pseudo,
        start: c.start,
        end,
        field: c.start + plan.field,
        body: c.start + body,
    })
}
