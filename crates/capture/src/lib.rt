// The hut's capture: which bytes of it are its records, and the verdict on each.
//
// Any bytes may be handed in. What a record's head says stands in `head_at` alone, and what a record is in `record_at`;
// the passes over a capture, and whoever else walks one, go by them.
#![tactic(auto)]

ghost use Rattle.std.specs.Prelude.{◌≡◌, ◌≤◌, length, drop};
ghost use Rattle.std.specs.Iterator.{YieldsFirstBy, item_count};
ghost use Rattle.wire.specs.Bytes.{put};
ghost use Rattle.verdicts.specs.declared.Verdict.TheVariants.{Record};
ghost use Rattle.capture.specs.Records.{other_mark, other_edition, head_of, record_at, read_of};
ghost use Rattle.capture.specs.Judged.{verdicts_of, judged_of, body_of, counted_of, shown, listed};

use judge::number;
use verdicts::Verdict;
use wire::word;

// The mark, and the place of the version behind it.
const MARK: &[u8] = b"GLR";

const VERSION: usize = 3;

// The records begin behind the capture's head.
pub const CAPTURE_HEAD: usize = 5;

// A record's head is its packet's length, which is at most this.
pub const RECORD_HEAD: usize = 2;

pub const MOST: usize = 2048;

// Bytes that are no record: the length is cut or too great, or the packet is cut.
#[derive(Clone, Copy, Debug, PartialEq, Eq)]
pub struct Damaged;

impl From<Damaged> for Verdict {
    ghost from_gives = { λ _ v. v ≡ Record };

    fn from(_: Damaged) -> Verdict {
        Verdict::Record
    }
}

// Where the packet of a whole record starts and ends.
#[derive(Clone, Copy)]
pub struct Found {
    pub start: usize,
    pub end: usize,
}

// The packets of the records that are left, in order, and behind them the damage, if there is any.
#[derive(Clone, Copy)]
struct Packets<'a> {
    rest: &'a [u8],
}

impl<'a> Iterator for Packets<'a> {
    type Item = Result<&'a [u8], Damaged>;

    ghost next_gives = { YieldsFirstBy shown (λ p. listed (read_of p.rest.now)) };

    ghost remaining = { item_count (λ p. listed (read_of p.rest.now)) };

    #[tactic(auto, using(crate::proofs::Places::first_end, crate::proofs::Places::first_packet, crate::proofs::Places::first_order, crate::proofs::Places::first_within, crate::proofs::Places::first_damage))]
    fn next(&mut self) -> Option<Result<&'a [u8], Damaged>> {
        let rest = self.rest;
        match record_at(rest, 0) {
            Ok(None) => None,
            Ok(Some(packet)) => {
                self.rest = &rest[packet.end..];
                Some(Ok(&rest[packet.start..packet.end]))
            }
            Err(damaged) => {
                self.rest = &[];
                Some(Err(damaged))
            }
        }
    }
}

// Judges a capture's records, and writes one verdict number for each, in order, into the second buffer. Answers how many
// there are; the bytes past that count stay, and a refusal writes nothing.
#[tactic(auto, unfolding(crate::specs::Judged::judged_of, crate::specs::Judged::capture_rules))]
pub fn judge_capture(capture: &[u8], verdicts: &mut [u8]) -> Result<usize, Verdict>
    ensures { (result, verdicts.new) ≡ judged_of capture.now verdicts.old }
{
    let rest = body(capture)?;
    let count = count(rest)?;
    if verdicts.len() < count {
        return Err(Verdict::Room);
    }
    judge_each(rest, verdicts);
    Ok(count)
}

// The bytes behind a capture's head, where its records stand.
#[tactic(auto, using(crate::proofs::Heads::edition_long))]
fn body(capture: &[u8]) -> Result<&[u8], Verdict>
    ensures { shown result ≡ body_of capture.now }
{
    if other_mark(capture) {
        return Err(Verdict::Mark);
    }
    if other_edition(capture) {
        return Err(Verdict::Edition);
    }
    Ok(&capture[CAPTURE_HEAD..])
}

// Whether a capture is too short for the mark, or has another.
#[tactic(auto, using(crate::proofs::Heads::mark_begins))]
pub fn other_mark(capture: &[u8]) -> bool
    ensures { result ≡ other_mark capture.now }
{
    !capture.starts_with(MARK)
}

// Whether a capture is too short for the version, or has another than 1.
#[tactic(auto, unfolding(crate::specs::Records::other_edition))]
pub fn other_edition(capture: &[u8]) -> bool
    ensures { result ≡ other_edition capture.now }
{
    capture.len() < CAPTURE_HEAD || word(capture, VERSION) != 1
}

// The length of the packet that follows the head of the record at a place. A place past the end is the end.
#[tactic(auto, using(crate::proofs::Reading::length_here, crate::proofs::Reading::word_here), unfolding(crate::specs::Records::head_of))]
pub fn head_at(bytes: &[u8], at: usize) -> Result<Option<usize>, Damaged>
    ensures { result ≡ head_of (drop at bytes.now) }
{
    if bytes.len() <= at {
        return Ok(None);
    }
    if bytes.len() - at < RECORD_HEAD {
        return Err(Damaged);
    }
    let size = usize::from(word(bytes, at));
    if MOST < size {
        return Err(Damaged);
    }
    Ok(Some(size))
}

// Where the packet of the record at a place of a capture stands, or `None` at the capture's end.
#[tactic(auto, using(crate::proofs::Reading::length_here, crate::proofs::Reading::head_there, crate::proofs::Reading::front_whole), unfolding(crate::specs::Records::record_at))]
pub fn record_at(capture: &[u8], at: usize) -> Result<Option<Found>, Damaged>
    ensures { result ≡ record_at capture.now at }
{
    let Some(size) = head_at(capture, at)? else {
        return Ok(None);
    };
    let start = at + RECORD_HEAD;
    if capture.len() - start < size {
        return Err(Damaged);
    }
    let end = start + size;
    Ok(Some(Found { start, end }))
}

// The first pass: how many records there are.
#[tactic(auto, using(crate::proofs::Passes::counting_all, crate::proofs::Passes::few_listed))]
fn count(rest: &[u8]) -> Result<usize, Damaged>
    ensures { result ≡ counted_of (read_of rest.now) }
{
    let mut count: usize = 0;
    for packet in (Packets { rest }) {
        packet?;
        count += 1;
    }
    Ok(count)
}

// The second pass: each record's verdict into its place.
#[tactic(auto, using(crate::proofs::Passes::sound_listed, crate::proofs::Passes::judging_full, crate::proofs::Passes::judging_none, crate::proofs::Passes::judging_damage))]
fn judge_each(rest: &[u8], verdicts: &mut [u8])
    requires { length (read_of rest.now).packets ≤ length verdicts.old }
    ensures { verdicts.new ≡ put verdicts.old 0 (verdicts_of (read_of rest.now).packets) }
{
    let mut packets = Packets { rest };
    for verdict in verdicts.iter_mut() {
        let Some(Ok(packet)) = packets.next() else {
            return;
        };
        *verdict = number(packet);
    }
}
