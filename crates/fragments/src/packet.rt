// The packet that a record lists, and what is read of it.
ghost use Rattle.std.specs.Prelude.{◌≡◌, true, ◌++◌, ◌*◌, ◌/◌, ◌%◌, ◌≤◌, ◌<◌, drop, eqb};
ghost use Rattle.sums.specs.Total.{total};
ghost use Rattle.sums.specs.Fold.{fold};
ghost use Rattle.sums.specs.Low.{eight_at};
ghost use Rattle.verdicts.specs.Rules.{IsClear};
ghost use Rattle.wire.specs.Bytes.{Bytes};
ghost use Rattle.wire.specs.Outer.{four, outer_rules};
ghost use Rattle.wire.specs.Messages.{rest_in};
ghost use Rattle.wire.specs.declared.Family.TheVariants.{Four};
ghost use Rattle.fragments.specs.Fragments.{piece_of, alike};
ghost use Rattle.fragments.specs.Gathered.{Arrived, Spans};
ghost use Rattle.std.proofs.Props.{props};
ghost use Rattle.fragments.specs.Props.{IsClear-prop};

// An IPv4 packet whose outer shape nothing refuses. It begins where these bytes do, and they may go on behind it.
#[derive(Clone, Copy)]
pub struct Packet<'a> {
    pub bytes: &'a [u8],
    ghost in_range: { Bytes bytes.now },
    ghost is_four: { four bytes.now ≡ true },
    ghost whole: { IsClear (outer_rules bytes.now) } by { Prim.hlevel (props, IsClear-prop) },
}

// A fragment's bytes, where they begin in the message, and whether more follow.
#[derive(Clone, Copy)]
pub struct Span<'a> {
    pub bytes: &'a [u8],
    pub begin: usize,
    pub more: bool,
}

impl<'a> Packet<'a> {
    // The packet that has arrived at a place.
    pub fn at(buffer: &'a [u8], place: usize) -> Packet<'a>
        requires { Arrived buffer.now place }
        ensures { result.bytes.now ≡ drop place buffer.now }
    {
        Packet {
            bytes: &buffer[place..],
        }
    }

    // Where its fragment begins in the message.
    #[tactic(auto, using(crate::proofs::Headers::long), unfolding(crate::specs::Fragments::piece_of))]
    pub fn begin(&self) -> usize
        ensures { result ≡ (piece_of self.now.bytes.now).begin }
    {
        8 * offset(wire::word(self.bytes, wire::FLAGS))
    }

    // What it brings of the message.
    #[tactic(auto, using(crate::proofs::Headers::ends), unfolding(crate::specs::Fragments::piece_of))]
    pub fn span(&self) -> Span<'a>
        ensures { Spans self.now.bytes.now result }
    {
        let header = (self.bytes[0] % 16) as usize * 4;
        let declared = wire::word(self.bytes, wire::TOTAL_LENGTH) as usize;
        let flags = wire::word(self.bytes, wire::FLAGS);
        Span {
            bytes: &self.bytes[header..declared],
            begin: 8 * offset(flags),
            more: more(flags),
        }
    }

    // The protocol of its message.
    #[tactic(auto, using(crate::proofs::Headers::long), unfolding(crate::specs::Fragments::piece_of))]
    pub fn protocol(&self) -> u8
        ensures { result ≡ (piece_of self.now.bytes.now).protocol }
    {
        self.bytes[wire::PROTOCOL_4]
    }

    // Whether two fragments share source, destination, protocol and identification.
    #[tactic(auto, unfolding(crate::specs::Fragments::alike))]
    pub fn is_alike(&self, other: &Packet) -> bool
        ensures { result ≡ alike (piece_of self.now.bytes.now) (piece_of other.now.bytes.now) }
    {
        self.identification() == other.identification()
            && self.protocol() == other.protocol()
            && self.addresses() == other.addresses()
    }

    #[tactic(auto, using(crate::proofs::Headers::long), unfolding(crate::specs::Fragments::piece_of))]
    fn identification(&self) -> u16
        ensures { result ≡ (piece_of self.now.bytes.now).identification }
    {
        wire::word(self.bytes, wire::IDENTIFICATION)
    }

    // Source and destination as one number, low byte first.
    #[tactic(auto, using(crate::proofs::Headers::long), unfolding(crate::specs::Fragments::piece_of))]
    fn addresses(&self) -> u64
        ensures { result ≡ eight_at (piece_of self.now.bytes.now).addresses 0 }
    {
        sums::le8(&self.bytes[wire::ADDRESSES_4..wire::ADDRESSES_4_END], 0)
    }

    // The total of the pseudo-header of a message of so many bytes between its addresses.
    pub fn before(&self, protocol: u8, size: usize) -> u64
        requires { size ≤ 65535 }
        ensures { fold result ≡ fold (256 * total ((piece_of self.now.bytes.now).addresses ++ rest_in Four protocol size)) }
    {
        let rest = (size as u64 + protocol as u64) * 256;
        sums::carry(rest, self.addresses())
    }
}

// The fragment offset in the word of flags and offset.
fn offset(w: u16) -> usize
    ensures { (result ≡ w % 8192) × (result < 8192) }
{
    (w & 0x1fff) as usize
}

// The more-fragments flag in that word.
fn more(w: u16) -> bool
    ensures { result ≡ eqb (w / 8192 % 2) 1 }
{
    w & 0x2000 != 0
}
