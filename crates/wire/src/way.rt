// The way from the IP header to the message: in IPv4 there is none, in IPv6 it leads over the headers between (RFC 8200, 4).
//
// Hop-by-hop, routing and destination options are passed, at most eight of them. The answer is the message's line of the
// table and its place, or the first refusal on the way.
ghost use Rattle.std.specs.Prelude.{◌≡◌, ◌+◌, ◌≤◌, length, Ok};
ghost use Rattle.wire.specs.Outer.{outer_of};
ghost use Rattle.wire.specs.Walk.{reached, size_at, unfinished_at, met_of, walk_by};
ghost use Rattle.wire.specs.Chain.{Passable};
ghost use Rattle.wire.specs.Inner.{listed, way_of};

use crate::bits::wide;
use crate::{Carried, Family, Header, ICMP, ICMP_6, LEAST_6, Protocol, TCP, UDP};
use verdicts::Verdict;

// The headers between.
const HOP_BY_HOP: u8 = 0;

const ROUTING: u8 = 43;

const FRAGMENT: u8 = 44;

const DESTINATION: u8 = 60;

// Places in one of them, its unit of length, and how many are passed.
const LENGTH: usize = 1;

const SEGMENTS_LEFT: usize = 3;

const UNIT: usize = 8;

const MOST: usize = 8;

// What stands at a place: a header that is passed, or the message.
#[derive(Clone, Copy)]
enum Met {
    Header,
    Message,
}

// What a packet whose IP header is h carries, or the first refusal on the way there.
#[inline(always)]
pub fn walk(packet: &[u8], h: Header) -> Result<Carried, Verdict>
    requires { Ok h ≡ outer_of packet.now }
    ensures { result ≡ way_of packet.now }
{
    match h.family {
        Family::Four => walk4(packet, h),
        Family::Six => walk6(packet, h),
    }
}

// A fragment, or the message directly behind the header. The packet is asked for by the contract alone.
#[inline(always)]
fn walk4(packet: &[u8], h: Header) -> Result<Carried, Verdict>
    requires { (Ok h ≡ outer_of packet.now) × (h.family ≡ Family.Four) }
    ensures { result ≡ way_of packet.now }
{
    if h.fragment {
        return Err(Verdict::Fragment);
    }
    listed(Family::Four, h.next, h.end, h.declared)
}

// Mostly no header stands between.
#[inline(always)]
fn walk6(packet: &[u8], h: Header) -> Result<Carried, Verdict>
    requires { (Ok h ≡ outer_of packet.now) × (h.family ≡ Family.Six) }
    ensures { result ≡ way_of packet.now }
{
    match listed(Family::Six, h.next, h.end, h.declared) {
        Ok(carried) => Ok(carried),
        Err(_) => behind(packet, h),
    }
}

// The loop's answer is taken out of memory here, and not where no header stands between.
#[inline(always)]
fn behind(packet: &[u8], h: Header) -> Result<Carried, Verdict>
    requires { (Ok h ≡ outer_of packet.now) × (h.family ≡ Family.Six) }
    ensures { result ≡ way_of packet.now }
{
    Ok(between(&packet[..h.declared], h.next)?)
}

// The walk over the headers between, of a packet that ends where it is declared to. The loop stays apart, and LLVM takes the
// rest into every caller.
#[inline(never)]
fn between(packet: &[u8], first: u8) -> Result<Carried, Verdict>
    requires { 40 ≤ length packet.now }
    ensures { result ≡ listed Family.Six (length packet.now) (walk_by 8 packet.now (length packet.now) first 40) }
{
    let mut next = first;
    let mut at = LEAST_6;
    // kept: behind a `for` over the headers left an answer would stand that never comes
    let mut left = MOST;
    loop {
        match meet(packet, left, next, at)? {
            Met::Message => return listed(Family::Six, next, at, packet.len()),
            Met::Header => {
                next = packet[at];
                at += size(packet, at);
                left -= 1;
            }
        }
    }
}

// What stands at a place where `next` is the next header and so many headers are left, or its refusal.
fn meet(packet: &[u8], left: usize, next: u8, at: usize) -> Result<Met, Verdict>
    requires { at ≤ length packet.now }
    ensures { result ≡ met_of packet.now (length packet.now) left next at }
{
    match next {
        FRAGMENT => Err(Verdict::Fragment),
        HOP_BY_HOP => {
            if at != LEAST_6 {
                return Err(Verdict::Uncovered);
            }
            header(packet, left, next, at)
        }
        ROUTING | DESTINATION => header(packet, left, next, at),
        _ => Ok(Met::Message),
    }
}

// A header that is no fragment and not late: whether it is the ninth, its reach, its segments left.
fn header(packet: &[u8], left: usize, next: u8, at: usize) -> Result<Met, Verdict>
    requires { (at ≤ length packet.now) × Passable next at }
    ensures { result ≡ met_of packet.now (length packet.now) left next at }
{
    if left == 0 {
        return Err(Verdict::Uncovered);
    }
    let room = packet.len() - at;
    if room < UNIT {
        return Err(Verdict::Shape);
    }
    if room < size(packet, at) {
        return Err(Verdict::Shape);
    }
    if unfinished(packet, next, at) {
        return Err(Verdict::Uncovered);
    }
    Ok(Met::Header)
}

// The size of the header at a place.
fn size(packet: &[u8], at: usize) -> usize
    requires { at + 8 ≤ length packet.now }
    ensures { result ≡ size_at packet.now at }
{
    UNIT + UNIT * wide(packet[at + LENGTH])
}

// Whether a header is a routing header with segments left.
fn unfinished(packet: &[u8], next: u8, at: usize) -> bool
    requires { at + 8 ≤ length packet.now }
    ensures { result ≡ unfinished_at packet.now next at }
{
    if next != ROUTING {
        return false;
    }
    packet[at + SEGMENTS_LEFT] != 0
}

// The message of a protocol, if the family's table has that.
#[inline(always)]
fn listed(family: Family, next: u8, start: usize, declared: usize) -> Result<Carried, Verdict>
    ensures { result ≡ listed family declared (reached next start) }
{
    let protocol = match family {
        Family::Four => match next {
            UDP => Protocol::Udp,
            TCP => Protocol::Tcp,
            ICMP => Protocol::Icmp,
            _ => return Err(Verdict::Uncovered),
        },
        Family::Six => match next {
            UDP => Protocol::Udp,
            TCP => Protocol::Tcp,
            ICMP_6 => Protocol::Icmp6,
            _ => return Err(Verdict::Uncovered),
        },
    };
    Ok(Carried {
        family,
        protocol,
        start,
        declared,
    })
}
