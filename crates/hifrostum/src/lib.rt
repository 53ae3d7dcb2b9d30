// The calls of a host program, by C's types: include/hifrostum.h has the same functions in C's words, and `hifrostum_c` exports them.
//
// A slice is a pointer and a length there. Any bytes may be lent, and every call ends and answers by the numbers of the
// rules paper. A refused call changes no lent byte, and sets to 0 what it hands back through count, fold and length,
// but for a join, which hands back the left sum.
#![tactic(auto)]

ghost use Rattle.std.specs.Prelude.{◌≡◌};
ghost use Rattle.verdicts.specs.Numbers.{number_of};
ghost use Rattle.sums.specs.Total.{total};
ghost use Rattle.sums.specs.Fold.{fold, field_of};
ghost use Rattle.sums.specs.Partials.{partial, join_of};
ghost use Rattle.chain.specs.Chain.{chain_of};
ghost use Rattle.sums.specs.Update.{updated};
ghost use Rattle.judge.specs.Judge.{judge_of};
ghost use Rattle.fragments.specs.Fragments.{fragments_of};
ghost use Rattle.mend.specs.Mend.{mend_of};
ghost use Rattle.kept.specs.Edits.{lifetime_of, address_of, stretch_of};
ghost use Rattle.kept.specs.Prefix.{prefix_of};
ghost use Rattle.capture.specs.Judged.{judged_of};
ghost use Rattle.build.specs.Layout.{asked};
ghost use Rattle.build.specs.Build.{built_of};
ghost use Rattle.hifrostum.specs.Answers.{numbered, counted, summed, chained, built};

use build::Udp;
use fragments::Fragment;
use sums::{Field, Fold, Partial};
use verdicts::Verdict;

// The verdict on a packet.
pub fn hifrostum_judge(packet: &[u8]) -> u8
    ensures { result ≡ number_of (judge_of packet.now) }
{
    judge::number(packet)
}

// The verdict on the fragments of one packet: those that a list describes in a buffer.
pub fn hifrostum_judge_fragments(buffer: &[u8], list: &[Fragment]) -> u8
    ensures { result ≡ number_of (fragments_of buffer.now list.now) }
{
    u8::from(fragments::judge_fragments(buffer, list))
}

// Sets a packet's sum fields fresh.
pub fn hifrostum_mend(packet: &mut [u8]) -> u8
    ensures { (result, packet.new) ≡ numbered (mend_of packet.old) }
{
    u8::from(mend::mend(packet))
}

// Lowers a packet's lifetime by one.
pub fn hifrostum_lower_lifetime(packet: &mut [u8]) -> u8
    ensures { (result, packet.new) ≡ numbered (lifetime_of packet.old) }
{
    u8::from(edit::lower_lifetime(packet))
}

// Sets the source (side 0) or the destination (side 1).
pub fn hifrostum_set_address(packet: &mut [u8], side: u32, address: &[u8]) -> u8
    ensures { (result, packet.new) ≡ numbered (address_of packet.old side address.now) }
{
    u8::from(edit::set_address(packet, side, address))
}

// Sets bytes of the body from a place on.
pub fn hifrostum_set_stretch(packet: &mut [u8], place: usize, bytes: &[u8]) -> u8
    ensures { (result, packet.new) ≡ numbered (stretch_of packet.old place bytes.now) }
{
    u8::from(edit::set_stretch(packet, place, bytes))
}

// Exchanges the prefix of the source (side 0) or of the destination (side 1).
pub fn hifrostum_exchange_prefix(packet: &mut [u8], side: u32, expected: &[u8], new: &[u8]) -> u8
    ensures { (result, packet.new) ≡ numbered (prefix_of packet.old side expected.now new.now) }
{
    u8::from(prefix::exchange_prefix(packet, side, expected, new))
}

// Builds a UDP packet in a buffer's first bytes.
pub fn hifrostum_build_udp(
    source: &[u8],
    destination: &[u8],
    source_port: u16,
    destination_port: u16,
    lifetime: u8,
    body: &[u8],
    buffer: &mut [u8],
    length: &mut usize,
) -> u8
    ensures { (result, (length.new, buffer.new)) ≡ built (built_of (asked source.now destination.now source_port destination_port lifetime body.now) buffer.old) }
{
    let udp = Udp {
        source,
        destination,
        source_port,
        destination_port,
        lifetime,
        body,
    };
    match build::build_udp(&udp, buffer) {
        Ok(size) => {
            *length = size;
            u8::from(Verdict::Good)
        }
        Err(v) => {
            *length = 0;
            u8::from(v)
        }
    }
}

// One verdict number for each record of a capture.
pub fn hifrostum_judge_capture(capture: &[u8], verdicts: &mut [u8], count: &mut usize) -> u8
    ensures { (result, (count.new, verdicts.new)) ≡ counted (judged_of capture.now verdicts.old) }
{
    let judged = capture::judge_capture(capture, verdicts);
    *count = judged.unwrap_or(0);
    u8::from(judged.err().unwrap_or(Verdict::Good))
}

// The partial sum of a chain of pieces of a buffer.
pub fn hifrostum_sum_chain(buffer: &[u8], pieces: &[u32], fold: &mut u16, length: &mut u64) -> u8
    ensures { (result, (fold.new, length.new)) ≡ chained (chain_of buffer.now pieces.now) }
{
    match chain::chain(buffer, pieces) {
        Ok(chained) => hand_back(Verdict::Good, chained, fold, length),
        Err(verdict) => {
            let nothing = Partial {
                fold: Fold(0),
                length: 0,
            };
            hand_back(verdict, nothing, fold, length)
        }
    }
}

// The partial sum of A's bytes followed by B's, or A's where the lengths together pass the 64-bit range.
pub fn hifrostum_join(
    fold_a: u16,
    length_a: u64,
    fold_b: u16,
    length_b: u64,
    fold: &mut u16,
    length: &mut u64,
) -> u8
    ensures { (result, (fold.new, length.new)) ≡ summed (join_of (partial fold_a length_a) (partial fold_b length_b)) }
{
    let a = Partial {
        fold: Fold(fold_a),
        length: length_a,
    };
    let b = Partial {
        fold: Fold(fold_b),
        length: length_b,
    };
    match folds::join(a, b) {
        Ok(joined) => hand_back(Verdict::Good, joined, fold, length),
        Err(refused) => hand_back(refused.verdict, refused.left, fold, length),
    }
}

// A sum through C's pointers, and the number of the verdict beside it.
fn hand_back(verdict: Verdict, sum: Partial, fold: &mut u16, length: &mut u64) -> u8
    ensures { (result ≡ number_of verdict) × (fold.new ≡ sum.fold.0) × (length.new ≡ sum.length) }
{
    *fold = sum.fold.0;
    *length = sum.length;
    u8::from(verdict)
}

// The field of a block.
pub fn hifrostum_field(bytes: &[u8]) -> u16
    ensures { result ≡ field_of (fold (total bytes.now)) }
{
    let f = folds::fold_at(bytes, false);
    let field = folds::field_of(f);
    field.0
}

// A field after the old bytes' fold gave way to the new bytes'.
pub fn hifrostum_update(field: u16, old_fold: u16, new_fold: u16) -> u16
    ensures { result ≡ updated field old_fold new_fold }
{
    let old = Fold(old_fold);
    let new = Fold(new_fold);
    let after = folds::update(Field(field), old, new);
    after.0
}
