// What a host program in C calls: include/hifrostum.h has the same functions in C's words.
//
// Each is the function of `hifrostum` with its name and its promise. Nothing stands here but the names that the archive exports.
#![tactic(auto)]

ghost use Rattle.std.specs.Prelude.{◌≡◌};
ghost use Rattle.verdicts.specs.Numbers.{number_of};
ghost use Rattle.sums.specs.Total.{total};
ghost use Rattle.sums.specs.Fold.{fold, field_of};
ghost use Rattle.sums.specs.Partials.{partial, join_of};
ghost use Rattle.chain.specs.Chain.{chain_of};
ghost use Rattle.sums.specs.Update.{updated};
ghost use Rattle.judge.specs.Judge.{judge_of};
ghost use Rattle.fragments.specs.Fragments.{fragments_of};
ghost use Rattle.mend.specs.Mend.{mend_of};
ghost use Rattle.kept.specs.Edits.{lifetime_of, address_of, stretch_of};
ghost use Rattle.kept.specs.Prefix.{prefix_of};
ghost use Rattle.capture.specs.Judged.{judged_of};
ghost use Rattle.build.specs.Layout.{asked};
ghost use Rattle.build.specs.Build.{built_of};
ghost use Rattle.hifrostum.specs.Answers.{numbered, counted, summed, chained, built};

use fragments::Fragment;

// The verdict on a packet.
#[unsafe(no_mangle)]
pub extern "C" fn hifrostum_judge(packet: &[u8]) -> u8
    ensures { result ≡ number_of (judge_of packet.now) }
{
    hifrostum::hifrostum_judge(packet)
}

// The verdict on the fragments of one packet: those that a list describes in a buffer.
#[unsafe(no_mangle)]
pub extern "C" fn hifrostum_judge_fragments(buffer: &[u8], list: &[Fragment]) -> u8
    ensures { result ≡ number_of (fragments_of buffer.now list.now) }
{
    hifrostum::hifrostum_judge_fragments(buffer, list)
}

// Sets a packet's sum fields fresh.
#[unsafe(no_mangle)]
pub extern "C" fn hifrostum_mend(packet: &mut [u8]) -> u8
    ensures { (result, packet.new) ≡ numbered (mend_of packet.old) }
{
    hifrostum::hifrostum_mend(packet)
}

// Lowers a packet's lifetime by one.
#[unsafe(no_mangle)]
pub extern "C" fn hifrostum_lower_lifetime(packet: &mut [u8]) -> u8
    ensures { (result, packet.new) ≡ numbered (lifetime_of packet.old) }
{
    hifrostum::hifrostum_lower_lifetime(packet)
}

// Sets the source (side 0) or the destination (side 1).
#[unsafe(no_mangle)]
pub extern "C" fn hifrostum_set_address(packet: &mut [u8], side: u32, address: &[u8]) -> u8
    ensures { (result, packet.new) ≡ numbered (address_of packet.old side address.now) }
{
    hifrostum::hifrostum_set_address(packet, side, address)
}

// Sets bytes of the body from a place on.
#[unsafe(no_mangle)]
pub extern "C" fn hifrostum_set_stretch(packet: &mut [u8], place: usize, bytes: &[u8]) -> u8
    ensures { (result, packet.new) ≡ numbered (stretch_of packet.old place bytes.now) }
{
    hifrostum::hifrostum_set_stretch(packet, place, bytes)
}

// Exchanges the prefix of the source (side 0) or of the destination (side 1).
#[unsafe(no_mangle)]
pub extern "C" fn hifrostum_exchange_prefix(
    packet: &mut [u8],
    side: u32,
    expected: &[u8],
    new: &[u8],
) -> u8
    ensures { (result, packet.new) ≡ numbered (prefix_of packet.old side expected.now new.now) }
{
    hifrostum::hifrostum_exchange_prefix(packet, side, expected, new)
}

// Builds a UDP packet in a buffer's first bytes.
#[unsafe(no_mangle)]
pub extern "C" fn hifrostum_build_udp(
    source: &[u8],
    destination: &[u8],
    source_port: u16,
    destination_port: u16,
    lifetime: u8,
    body: &[u8],
    buffer: &mut [u8],
    length: &mut usize,
) -> u8
    ensures { (result, (length.new, buffer.new)) ≡ built (built_of (asked source.now destination.now source_port destination_port lifetime body.now) buffer.old) }
{
    hifrostum::hifrostum_build_udp(
        source,
        destination,
        source_port,
        destination_port,
        lifetime,
        body,
        buffer,
        length,
    )
}

// One verdict number for each record of a capture.
#[unsafe(no_mangle)]
pub extern "C" fn hifrostum_judge_capture(
    capture: &[u8],
    verdicts: &mut [u8],
    count: &mut usize,
) -> u8
    ensures { (result, (count.new, verdicts.new)) ≡ counted (judged_of capture.now verdicts.old) }
{
    hifrostum::hifrostum_judge_capture(capture, verdicts, count)
}

// The partial sum of a chain of pieces of a buffer.
#[unsafe(no_mangle)]
pub extern "C" fn hifrostum_sum_chain(
    buffer: &[u8],
    pieces: &[u32],
    fold: &mut u16,
    length: &mut u64,
) -> u8
    ensures { (result, (fold.new, length.new)) ≡ chained (chain_of buffer.now pieces.now) }
{
    hifrostum::hifrostum_sum_chain(buffer, pieces, fold, length)
}

// The partial sum of A's bytes followed by B's, or A's where the lengths together pass the 64-bit range.
#[unsafe(no_mangle)]
pub extern "C" fn hifrostum_join(
    fold_a: u16,
    length_a: u64,
    fold_b: u16,
    length_b: u64,
    fold: &mut u16,
    length: &mut u64,
) -> u8
    ensures { (result, (fold.new, length.new)) ≡ summed (join_of (partial fold_a length_a) (partial fold_b length_b)) }
{
    hifrostum::hifrostum_join(fold_a, length_a, fold_b, length_b, fold, length)
}

// The field of a block.
#[unsafe(no_mangle)]
pub extern "C" fn hifrostum_field(bytes: &[u8]) -> u16
    ensures { result ≡ field_of (fold (total bytes.now)) }
{
    hifrostum::hifrostum_field(bytes)
}

// A field after the old bytes' fold gave way to the new bytes'.
#[unsafe(no_mangle)]
pub extern "C" fn hifrostum_update(field: u16, old_fold: u16, new_fold: u16) -> u16
    ensures { result ≡ updated field old_fold new_fold }
{
    hifrostum::hifrostum_update(field, old_fold, new_fold)
}
