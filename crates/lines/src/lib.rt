// What the program that judges a capture prints, decided a piece of the input at a time.
//
// A program asks a state's `want` how many bytes to read next, reads them, and hands `feed` what it got: fewer than
// wanted means that the input ended there. `feed` goes on to the next state, and answers at most one line to print at once.
// When `want` answers nothing, the program is done.
#![tactic(auto)]

mod text;

ghost use Rattle.std.specs.Prelude.{◌≡◌, ◌+◌, ◌≤◌, length};
ghost use Rattle.verdicts.specs.Numbers.{number_of};
ghost use Rattle.io.specs.Counts.{IsPrefixLen};
ghost use Rattle.lines.specs.Text.{line_size, ◌then◌};
ghost use Rattle.lines.specs.Lines.{text_of, counts_text, room_of};
ghost use Rattle.lines.specs.Feed.{start_of, want_of, tallied, stopping, judging, after_capture_head, after_record_head, after_packet, decided_of, fed_of};

use capture::{CAPTURE_HEAD, RECORD_HEAD, head_at, other_edition, other_mark};
use judge::judge;
use text::{put_count, put_text};
use verdicts::Verdict;

// No more bytes are wanted at once: the longest packet.
pub const PIECE: usize = capture::MOST;

// No line is longer than this.
pub const LINE: usize = 128;

// What is read next: the capture's head, a record's head, its packet of so many bytes, or nothing more.
#[derive(Clone, Copy)]
pub enum Phase {
    CaptureHead,
    RecordHead,
    Packet(usize),
    Stopped,
}

// The records so far, and how many of them were good, unsummed and refused.
#[derive(Clone, Copy)]
pub struct Tally {
    pub records: u64,
    pub good: u64,
    pub unsummed: u64,
    pub refused: u64,
}

#[derive(Clone, Copy)]
pub struct State {
    pub phase: Phase,
    pub tally: Tally,
}

#[derive(Clone, Copy)]
enum Line {
    Judged { number: u64, verdict: Verdict },
    Totals(Tally),
    Stopped { verdict: Verdict, after: u64 },
}

impl State {
    // The state before anything is read.
    pub fn start() -> State
        ensures { result ≡ start_of }
    {
        State {
            phase: Phase::CaptureHead,
            tally: Tally {
                records: 0,
                good: 0,
                unsummed: 0,
                refused: 0,
            },
        }
    }

    // How many bytes are to be read next, or `None` when there is nothing more to do.
    pub fn want(&self) -> Option<usize>
        ensures { result ≡ want_of self.now }
    {
        match self.phase {
            Phase::CaptureHead => Some(CAPTURE_HEAD),
            Phase::RecordHead => Some(RECORD_HEAD),
            Phase::Packet(0) | Phase::Stopped => None,
            Phase::Packet(size) => Some(size),
        }
    }

    // Takes the bytes that were read, and goes on to the next state. The line to print, if there is one, is put at the start
    // of `out`, and its length is answered. The bytes of `out` behind it stay.
    #[tactic(auto, unfolding(crate::specs::Feed::fed_of, wire::specs::Bytes::put))]
    pub fn feed(&mut self, bytes: &[u8], out: &mut [u8; LINE]) -> usize
        ensures out_after { (self.new, result, out.new) ≡ fed_of self.old bytes.now out.old }
        ensures prefix_len { IsPrefixLen result out.new }
    {
        match self.step(bytes) {
            Some(line) => spell(line, out),
            None => 0,
        }
    }

    // Goes on to the next state, and answers the line that follows, before it is turned into bytes.
    fn step(&mut self, bytes: &[u8]) -> Option<Line>
        ensures { (self.new, result) ≡ decided_of self.old bytes.now }
    {
        match self.phase {
            Phase::CaptureHead => self.after_capture_head(bytes),
            Phase::RecordHead => self.after_record_head(bytes),
            Phase::Packet(size) => self.after_packet(size, bytes),
            Phase::Stopped => None,
        }
    }

    fn after_capture_head(&mut self, bytes: &[u8]) -> Option<Line>
        ensures { (self.new, result) ≡ after_capture_head self.old.tally bytes.now }
    {
        if other_mark(bytes) {
            return self.stop(Verdict::Mark);
        }
        if other_edition(bytes) {
            return self.stop(Verdict::Edition);
        }
        self.phase = Phase::RecordHead;
        None
    }

    // At the input's end the totals follow, and a packet of no bytes is judged at once.
    fn after_record_head(&mut self, bytes: &[u8]) -> Option<Line>
        ensures { (self.new, result) ≡ after_record_head self.old.tally bytes.now }
    {
        match head_at(bytes, 0) {
            Ok(None) => {
                self.phase = Phase::Stopped;
                Some(Line::Totals(self.tally))
            }
            Ok(Some(0)) => self.judged(&[]),
            Ok(Some(size)) => {
                self.phase = Phase::Packet(size);
                None
            }
            Err(damaged) => self.stop(Verdict::from(damaged)),
        }
    }

    fn after_packet(&mut self, size: usize, bytes: &[u8]) -> Option<Line>
        ensures { (self.new, result) ≡ after_packet self.old.tally size bytes.now }
    {
        if bytes.len() < size {
            return self.stop(Verdict::Record);
        }
        self.judged(&bytes[..size])
    }

    // Reading stops at damage.
    fn stop(&mut self, verdict: Verdict) -> Option<Line>
        ensures { (self.new, result) ≡ stopping self.old.tally verdict }
    {
        self.phase = Phase::Stopped;
        Some(Line::Stopped {
            verdict,
            after: self.tally.records,
        })
    }

    // A whole record: its packet is judged and counted.
    fn judged(&mut self, packet: &[u8]) -> Option<Line>
        ensures { (self.new, result) ≡ judging self.old.tally packet.now }
    {
        let verdict = judge(packet);
        self.phase = Phase::RecordHead;
        self.tally.count(verdict);
        Some(Line::Judged {
            number: self.tally.records,
            verdict,
        })
    }
}

impl Tally {
    // One record more, with this verdict. A count stays at the largest number of 64 bits.
    #[tactic(auto, unfolding(crate::specs::Feed::more))]
    fn count(&mut self, verdict: Verdict)
        ensures { self.new ≡ tallied self.old (number_of verdict) }
    {
        self.records = self.records.saturating_add(1);
        match verdict {
            Verdict::Good => self.good = self.good.saturating_add(1),
            Verdict::Unsummed => self.unsummed = self.unsummed.saturating_add(1),
            _ => self.refused = self.refused.saturating_add(1),
        }
    }
}

// Puts a line's bytes at the start of a buffer, and answers how many there are.
#[tactic(auto, unfolding(crate::specs::Lines::text_of, crate::specs::Lines::pair_text, crate::specs::Lines::totals_text))]
fn spell(line: Line, out: &mut [u8]) -> usize
    requires { line_size ≤ length out.old }
    ensures out_after { (result, out.new) ≡ (0, out.old) then text_of line }
    ensures upper_bound { result ≤ line_size }
{
    match line {
        Line::Judged { number, verdict } => {
            let code = u64::from(u8::from(verdict));
            spell_counts(&[("record ", number), (" verdict ", code)], out)
        }
        Line::Totals(t) => {
            spell_counts(
                &[
                    ("records ", t.records),
                    (" good ", t.good),
                    (" unsummed ", t.unsummed),
                    (" refused ", t.refused),
                ],
                out,
            )
        }
        Line::Stopped { verdict, after } => {
            let code = u64::from(u8::from(verdict));
            spell_counts(&[("stopped ", code), (" after ", after)], out)
        }
    }
}

// Texts with a number behind each, and the line's end.
fn spell_counts(counts: &[(&str, u64)], out: &mut [u8]) -> usize
    requires { room_of counts.now + 1 ≤ length out.old }
    ensures out_after { (result, out.new) ≡ (0, out.old) then counts_text counts.now }
    ensures upper_bound { result ≤ room_of counts.now + 1 }
{
    let mut at: usize = 0;
    for (text, n) in counts {
        at = put_count(out, at, text.as_bytes(), *n);
    }
    put_text(out, at, b"\n")
}
