// A packet of the hut's own: UDP over IPv4 or IPv6, laid into a lent buffer with fresh sums.
//
// The bytes are written in the order in which the RFCs have them, with sums of 0000, and then the sums. A refused call changes
// no byte, and what lies behind the packet in the buffer stays.
#![tactic(auto)]

ghost use Rattle.std.specs.Prelude.{◌≡◌, true, ◌+◌, ◌≤◌, length, MatchResult};
ghost use Rattle.sums.specs.Fold.{fold, swap, field_of};
ghost use Rattle.wire.specs.Bytes.{put};
ghost use Rattle.wire.specs.declared.Family.TheVariants.{Four, Six};
ghost use Rattle.cover.specs.Sums.{message_total};
ghost use Rattle.mend.specs.Fresh.{sent};
ghost use Rattle.build.specs.Layout.{header_size, datagram_for, packet_in};
ghost use Rattle.build.specs.Build.{asked_by, misfit, built_of};
ghost use Rattle.build.specs.Places.{Fits, places_in, header_left};

use verdicts::Verdict;
use wire::{ADDRESS_4, ADDRESS_6, ADDRESSES_4, ADDRESSES_6, Family, Message, Packet, UDP_HEADER};

// How long a body may be.
const MOST: usize = 1400;

// What a packet is to have.
#[derive(Clone, Copy)]
pub struct Udp<'a> {
    pub source: &'a [u8],
    pub destination: &'a [u8],
    pub source_port: u16,
    pub destination_port: u16,
    pub lifetime: u8,
    pub body: &'a [u8],
}

// The same where both addresses have the family's size, and the body isn't too long.
#[derive(Clone, Copy)]
struct Fit<'a> {
    family: Family,
    udp: Udp<'a>,
    ghost fits: { Fits family (asked_by udp) },
}

// Builds a packet in the buffer's first bytes, and answers how many it has; or place, spent or room.
pub fn build_udp(udp: &Udp<'_>, buffer: &mut [u8]) -> Result<usize, Verdict>
    ensures { (result, buffer.new) ≡ built_of (asked_by udp.now) buffer.old }
{
    let fit = udp.fit()?;
    if udp.lifetime == 0 {
        return Err(Verdict::Spent);
    }
    let size = fit.places().end;
    if buffer.len() < size {
        return Err(Verdict::Room);
    }
    fit.fill(&mut buffer[..size]);
    Ok(size)
}

impl<'a> Udp<'a> {
    // The family, by the source's size; or place.
    fn fit(&self) -> Result<Fit<'a>, Verdict>
        ensures { MatchResult result (λ f. f.udp ≡ self.now) (λ v. (v ≡ Verdict.Place) × (misfit (asked_by self.now) ≡ true)) }
    {
        let family = match self.source.len() {
            ADDRESS_4 => Family::Four,
            ADDRESS_6 => Family::Six,
            _ => return Err(Verdict::Place),
        };
        if self.destination.len() != self.source.len() || MOST < self.body.len() {
            return Err(Verdict::Place);
        }
        Ok(Fit { family, udp: *self })
    }
}

impl<'a> Fit<'a> {
    // Where things will stand in the packet.
    fn places(&self) -> Message
        ensures { result ≡ places_in self.now.family (length self.now.udp.body.now) }
    {
        let header = match self.family {
            Family::Four => wire::ADDRESSES_4_END,
            Family::Six => wire::ADDRESSES_6_END,
        };
        Message {
            family: self.family,
            protocol: wire::UDP,
            pseudo: true,
            start: header,
            end: header + (UDP_HEADER + self.udp.body.len()),
            field: header + wire::UDP_FIELD,
            body: header + UDP_HEADER,
        }
    }

    // Writes the whole packet: its headers with sums of 0000 and its body, then the sums.
    fn fill(&self, packet: &mut [u8])
        requires { length packet.old ≡ header_size self.now.family + (8 + length self.now.udp.body.now) }
        ensures { packet.new ≡ packet_in self.now.family (asked_by self.now.udp) }
    {
        let m = self.places();
        self.lay_header(packet);
        self.lay_datagram(packet, m.start);
        mend::mend_header(packet, m);
        let fresh = fresh_field(&Packet::new(packet, m));
        writes::put_low(packet, m.field, fresh);
    }

    // Writes the IP header, with a field of 0000.
    fn lay_header(&self, packet: &mut [u8])
        requires { (header_size self.now.family ≤ length packet.old) × (length packet.old ≤ 65535) }
        ensures { packet.new ≡ header_left self.now.family packet.old (asked_by self.now.udp) }
    {
        match self.family {
            Family::Four => self.lay_4(packet),
            Family::Six => self.lay_6(packet),
        }
    }

    // RFC 791.
    fn lay_4(&self, packet: &mut [u8])
        requires family { self.now.family ≡ Four }
        requires room { (20 ≤ length packet.old) × (length packet.old ≤ 65535) }
        ensures { packet.new ≡ header_left Four packet.old (asked_by self.now.udp) }
    {
        let [high, low] = (packet.len() as u16).to_be_bytes();
        let source = self.udp.source;
        let destination = self.udp.destination;
        writes::put(packet, 0, [0x45, 0, high, low, 0, 0, 0, 0]);
        writes::put(
            packet,
            wire::LIFETIME_4,
            [self.udp.lifetime, wire::UDP, 0, 0],
        );
        writes::copy::<ADDRESS_4>(packet, ADDRESSES_4, source, 0);
        writes::copy::<ADDRESS_4>(packet, ADDRESSES_4 + ADDRESS_4, destination, 0);
    }

    // RFC 8200.
    fn lay_6(&self, packet: &mut [u8])
        requires family { self.now.family ≡ Six }
        requires room { (40 ≤ length packet.old) × (length packet.old ≤ 65535) }
        ensures { packet.new ≡ header_left Six packet.old (asked_by self.now.udp) }
    {
        let size = packet.len() - wire::ADDRESSES_6_END;
        let [high, low] = (size as u16).to_be_bytes();
        let source = self.udp.source;
        let destination = self.udp.destination;
        writes::put(
            packet,
            0,
            [0x60, 0, 0, 0, high, low, wire::UDP, self.udp.lifetime],
        );
        writes::copy::<ADDRESS_6>(packet, ADDRESSES_6, source, 0);
        writes::copy::<ADDRESS_6>(packet, ADDRESSES_6 + ADDRESS_6, destination, 0);
    }

    // RFC 768: writes the datagram from a place on, with a field of 0000.
    fn lay_datagram(&self, packet: &mut [u8], at: usize)
        requires { at + (8 + length self.now.udp.body.now) ≤ length packet.old }
        ensures { packet.new ≡ put packet.old at (datagram_for (asked_by self.now.udp) 0) }
    {
        let udp = &self.udp;
        let size = (UDP_HEADER + udp.body.len()) as u16;
        writes::put(packet, at, udp.source_port.to_be_bytes());
        writes::put(packet, at + 2, udp.destination_port.to_be_bytes());
        writes::put(packet, at + wire::UDP_LENGTH, size.to_be_bytes());
        writes::put(packet, at + wire::UDP_FIELD, [0, 0]);
        writes::put_bytes(packet, at + UDP_HEADER, udp.body);
    }
}

// The datagram's field, where 0000 stands in it. (kept: the mender's own takes out what stands there, and asks what the protocol
// is; with a second caller LLVM took it into neither, and `mend` had 192 instructions for 163.)
fn fresh_field(packet: &Packet) -> u16
    ensures { swap result ≡ sent true (field_of (fold (message_total packet.now))) }
{
    let before = cover::pseudo_total(packet);
    match sums::field_low(sums::total(packet.block(), before)) {
        0 => 65535,
        fresh => fresh,
    }
}
