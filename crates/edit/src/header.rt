// The header's own sum field.
ghost use Rattle.std.specs.Prelude.{◌≡◌, ◌<◌, length};
ghost use Rattle.edit.specs.Rest.{header_put};

use wire::{Family, HEADER_FIELD};

// Writes it, unless it is a header of IPv6, which has none.
#[inline(always)]
pub fn put_header(packet: &mut [u8], family: Family, w: u16)
    requires { 11 < length packet.old }
    ensures { packet.new ≡ header_put family packet.old w }
{
    match family {
        Family::Four => writes::put_low(packet, HEADER_FIELD, w),
        Family::Six => {}
    }
}
