// Packets of a buffer at sorted places, and the message that they fill.
ghost use Rattle.std.specs.Prelude.{◌≡◌, true, ◌++◌, ◌+◌, ◌*◌, ◌≤◌, ◌<◌, length, take, drop, get_or, if◌then◌else◌};
ghost use Rattle.verdicts.specs.Rules.{verdict_by};
ghost use Rattle.sums.specs.Total.{weigh, total};
ghost use Rattle.sums.specs.Fold.{fold, passes};
ghost use Rattle.wire.specs.Bytes.{byte_at, word_at};
ghost use Rattle.wire.specs.Messages.{rest_in};
ghost use Rattle.wire.specs.declared.Family.TheVariants.{Four};
ghost use Rattle.fragments.specs.Fragments.{together, pieces_rules};
ghost use Rattle.fragments.specs.Gathered.{piece_at, pieces_at, shaped_of, filled_of, message_of, Arrived, AllArrived, Ordered, Spans, Filled};
ghost use Rattle.std.proofs.Props.{props};
ghost use Rattle.fragments.specs.Props.{IsClear-prop};

use crate::packet::{Packet, Span};
use verdicts::Verdict;
use wire::UDP_HEADER;

// Where a message ends at most.
const LONGEST: usize = 65515;

// The fixed headers of other messages than UDP's.
const ICMP_HEADER: usize = 8;

const TCP_HEADER: usize = 20;

// Where packets have arrived, one at least, sorted by where their fragments begin in the message.
#[derive(Clone, Copy)]
pub struct Sorted<'a> {
    pub buffer: &'a [u8],
    pub places: &'a [usize],
    ghost some: { 0 < length places.now },
    ghost arrived: { AllArrived buffer.now places.now } by { Prim.hlevel (props, IsClear-prop) },
    ghost ordered: { Ordered buffer.now places.now },
}

// Those that fill a message of so many bytes.
#[derive(Clone, Copy)]
pub struct Message<'a> {
    pub parts: Sorted<'a>,
    pub size: usize,
    ghost filled: { Filled parts.buffer.now parts.places.now size } by { Prim.hlevel (props, IsClear-prop) },
}

impl<'a> Sorted<'a> {
    // The verdict on them.
    pub fn verdict(&self) -> Verdict
        ensures { result ≡ verdict_by (pieces_rules (pieces_at self.now.buffer.now self.now.places.now)) }
    {
        if !self.is_shaped() {
            return Verdict::Shape;
        }
        match self.filled() {
            Some(size) => Message { parts: *self, size }.verdict(),
            None => Verdict::Fragment,
        }
    }

    fn first(&self) -> Packet<'a>
        ensures { result.bytes.now ≡ drop (get_or self.now.places.now 0 0) self.now.buffer.now }
    {
        Packet::at(self.buffer, self.places[0])
    }

    // What the packet at a place brings of the message.
    fn span(&self, place: usize) -> Span<'a>
        requires { Arrived self.now.buffer.now place }
        ensures { Spans (drop place self.now.buffer.now) result }
    {
        Packet::at(self.buffer, place).span()
    }

    // Whether all share what they must, none is empty and none ends past the longest message.
    fn is_shaped(&self) -> bool
        ensures { result ≡ shaped_of (piece_at self.now.buffer.now (get_or self.now.places.now 0 0)) (pieces_at self.now.buffer.now self.now.places.now) }
    {
        let first = self.first();
        for place in self.places {
            let packet = Packet::at(self.buffer, *place);
            if !first.is_alike(&packet) {
                return false;
            }
            let span = packet.span();
            if span.bytes.is_empty() {
                return false;
            }
            if LONGEST < span.begin + span.bytes.len() {
                return false;
            }
        }
        true
    }

    // The length of the message that they fill, if they do.
    fn filled(&self) -> Option<usize>
        ensures { result ≡ filled_of (pieces_at self.now.buffer.now self.now.places.now) }
    {
        let (last, others) = self.places.split_last()?;
        let mut end: usize = 0;
        for place in others {
            let span = self.span(*place);
            if span.begin != end {
                return None;
            }
            if !span.more {
                return None;
            }
            if span.bytes.len() % 8 != 0 {
                return None;
            }
            end += span.bytes.len();
        }
        let span = self.span(*last);
        if span.begin != end {
            return None;
        }
        if span.more {
            return None;
        }
        Some(end + span.bytes.len())
    }

    // The total of the pseudo-header of a message of so many bytes between their addresses.
    fn before(&self, protocol: u8, size: usize) -> u64
        requires { size ≤ 65535 }
        ensures { fold result ≡ fold (256 * total ((piece_at self.now.buffer.now (get_or self.now.places.now 0 0)).addresses ++ rest_in Four protocol size)) }
    {
        self.first().before(protocol, size)
    }

    // The byte of the message at a place.
    fn byte(&self, place: usize) -> u8
        ensures { result ≡ byte_at (together (pieces_at self.now.buffer.now self.now.places.now)) place }
    {
        let mut i = place;
        for at in self.places {
            let bytes = self.span(*at).bytes;
            if i < bytes.len() {
                return bytes[i];
            }
            i -= bytes.len();
        }
        0
    }

    // The word of the message at a place.
    fn word(&self, place: usize) -> usize
        requires { place < 8 }
        ensures { result ≡ word_at (together (pieces_at self.now.buffer.now self.now.places.now)) place }
    {
        self.byte(place) as usize * 256 + self.byte(place + 1) as usize
    }
}

impl<'a> Message<'a> {
    // The verdict on it, by the table's lines for IPv4.
    fn verdict(&self) -> Verdict
        ensures { result ≡ message_of self.now.parts.buffer.now self.now.parts.places.now (piece_at self.now.parts.buffer.now (get_or self.now.parts.places.now 0 0)).protocol }
    {
        match self.parts.first().protocol() {
            wire::UDP => self.udp(),
            wire::TCP => self.tcp(),
            wire::ICMP => self.icmp(),
            _ => Verdict::Uncovered,
        }
    }

    // Of ICMP there is no pseudo-header.
    fn icmp(&self) -> Verdict
        ensures { result ≡ message_of self.now.parts.buffer.now self.now.parts.places.now 1 }
    {
        if self.size < ICMP_HEADER {
            return Verdict::Shape;
        }
        summed(self.total(self.size, 0))
    }

    // TCP's data offset says where the body begins, behind the fixed header and inside the message.
    fn tcp(&self) -> Verdict
        ensures { result ≡ message_of self.now.parts.buffer.now self.now.parts.places.now 6 }
    {
        if self.size < TCP_HEADER {
            return Verdict::Shape;
        }
        let body = (self.parts.byte(wire::DATA_OFFSET) / 16) as usize * 4;
        if body < TCP_HEADER {
            return Verdict::Shape;
        }
        if self.size < body {
            return Verdict::Shape;
        }
        let seed = self.parts.before(wire::TCP, self.size);
        summed(self.total(self.size, seed))
    }

    // UDP's length says where the datagram ends, and only that is summed.
    fn udp(&self) -> Verdict
        ensures { result ≡ message_of self.now.parts.buffer.now self.now.parts.places.now 17 }
    {
        if self.size < UDP_HEADER {
            return Verdict::Shape;
        }
        let own = self.parts.word(wire::UDP_LENGTH);
        if own < UDP_HEADER {
            return Verdict::Shape;
        }
        if self.size < own {
            return Verdict::Shape;
        }
        if self.parts.word(wire::UDP_FIELD) == 0 {
            return Verdict::Unsummed;
        }
        let seed = self.parts.before(wire::UDP, own);
        summed(self.total(own, seed))
    }

    // The total of its first bytes, added to a seed: fragment by fragment, each where it lies.
    fn total(&self, size: usize, seed: u64) -> u64
        ensures { fold result ≡ fold (seed + weigh true (take size (together (pieces_at self.now.parts.buffer.now self.now.parts.places.now)))) }
    {
        let mut t = seed;
        let mut left = size;
        for place in self.parts.places {
            let bytes = self.parts.span(*place).bytes;
            let n = bytes.len().min(left);
            t = sums::total(&bytes[..n], t);
            left -= n;
        }
        t
    }
}

// The verdict on a message with its field in place, whose total is t.
fn summed(t: u64) -> Verdict
    ensures { result ≡ (if passes t then Verdict.Good else Verdict.MessageSum) }
{
    if sums::passes(t) {
        Verdict::Good
    } else {
        Verdict::MessageSum
    }
}
