// The answer to each operation.
use crate::buffers::LARGEST;
use crate::cases::front;
use crate::error::Error;
use crate::operation::{Ask, Operation};
use crate::shown::{Digest, Number, Outcome, Sum};
use build::{Udp, build_udp};
use capture::judge_capture;
use fragments::{Fragment, Gathered};
use lines::State;
use std::io;
use sums::{Fold, Partial};
use verdicts::Verdict;

// What each place of a verdict buffer holds before the call.
const FILL: u8 = 0xA5;

// The size of a 32-bit number.
const NUMBER: usize = 4;

// Calls the operation on the buffer and payload two, and prints its answer.
pub fn answer(
    rt: &impl Print,
    operation: Operation,
    buffer: &mut [u8],
    two: &[u8],
) -> Result<(), Error> {
    match operation {
        Operation::Judge => println!(rt; "{}", Number(judge::judge(buffer)))?,
        Operation::Mend => edited(rt, mend::mend(buffer), buffer)?,
        Operation::LowerLifetime => edited(rt, edit::lower_lifetime(buffer), buffer)?,
        Operation::SetAddress { side } => {
            edited(rt, edit::set_address(buffer, side, two), buffer)?
        }
        Operation::SetStretch { place } => {
            edited(rt, edit::set_stretch(buffer, place, two), buffer)?
        }
        Operation::JudgeCapture { places } => captured(rt, buffer, places)?,
        Operation::Chain => println!(rt; "{}", chained(buffer, two))?,
        Operation::Sum => println!(rt; "{}", Sum(folds::sum(buffer)))?,
        Operation::FoldAt { odd } => println!(rt; "{}", folds::fold_at(buffer, odd).0)?,
        Operation::Field => println!(rt; "{}", folds::field_of(folds::sum(buffer).fold).0)?,
        Operation::Update { field, old, new } => {
            println!(rt; "{}", folds::update(field, old, new).0)?
        }
        Operation::Join => println!(rt; "{}", joined(two)?)?,
        Operation::Printed => printed(rt, buffer)?,
        Operation::ExchangePrefix { side, expected } => {
            edited(rt, exchanged(side, expected, two, buffer)?, buffer)?
        }
        Operation::JudgeFragments => { println!(rt; "{}", Number(gathered(buffer, two)))? }
        Operation::Build(ask) => {
            let built = built(ask, two, buffer)?;
            println!(rt; "{built} {}", Digest::of(buffer))?
        }
    }
    Ok(())
}

// Prints the verdict on an edit, and the digest of what it left.
fn edited(rt: &impl Print, verdict: Verdict, buffer: &[u8]) -> io::Result<()> {
    println!(rt; "{}", Outcome(verdict, Digest::of(buffer)))
}

// A capture's verdicts, into so many places.
fn captured(rt: &impl Print, capture: &[u8], places: usize) -> io::Result<()> {
    judged(rt, capture, places, &mut [FILL; LARGEST])
}

// The same in a room that may have more.
fn judged(rt: &impl Print, capture: &[u8], places: usize, room: &mut [u8]) -> io::Result<()> {
    let end = places.min(room.len());
    let verdicts = &mut room[..end];
    let judged = Outcome::of(judge_capture(capture, verdicts), 0);
    println!(rt; "{judged} {}", Digest::of(verdicts))
}

// A chain over the list of 32-bit numbers that payload two is. Beside a refusal stands the sum of nothing.
fn chained(buffer: &[u8], two: &[u8]) -> Outcome<Sum> {
    let mut list = [0; LARGEST / NUMBER];
    let numbers = numbers(two, &mut list);
    let nothing = Partial {
        fold: Fold(0),
        length: 0,
    };
    Outcome::of(chain::chain(buffer, numbers).map(Sum), Sum(nothing))
}

// Turns bytes into 32-bit numbers at a list's start, and lends these.
fn numbers<'a>(bytes: &[u8], list: &'a mut [u32]) -> &'a [u32] {
    let (numbers, _) = bytes.as_chunks::<NUMBER>();
    for (place, number) in list.iter_mut().zip(numbers) {
        *place = u32::from_be_bytes(*number);
    }
    let count = numbers.len().min(list.len());
    &list[..count]
}

// The verdict on the fragments that payload two lists, by the calls that `fragments::judge_fragments` makes: of each the
// offset and the length, 64 bits both.
fn gathered(buffer: &[u8], two: &[u8]) -> Verdict {
    let (numbers, _) = two.as_chunks();
    let (records, _) = numbers.as_chunks::<2>();
    let mut gathered = Gathered::new(buffer);
    for [offset, length] in records {
        gathered.add(Fragment {
            offset: usize::from_be_bytes(*offset),
            length: usize::from_be_bytes(*length),
        });
    }
    gathered.verdict()
}

// Payload two is the expected prefix and then the new one.
fn exchanged(side: u32, expected: usize, two: &[u8], buffer: &mut [u8]) -> Result<Verdict, Error> {
    let (expected, new) = split(two, expected)?;
    Ok(prefix::exchange_prefix(buffer, side, expected, new))
}

// Payload two is the source, the destination and then the body.
fn built(ask: Ask, two: &[u8], buffer: &mut [u8]) -> Result<Outcome<usize>, Error> {
    let (source, rest) = split(two, usize::from(ask.source_size))?;
    let (destination, body) = split(rest, usize::from(ask.destination_size))?;
    let udp = Udp {
        source,
        destination,
        source_port: ask.source_port,
        destination_port: ask.destination_port,
        lifetime: ask.lifetime,
        body,
    };
    Ok(Outcome::of(build_udp(&udp, buffer), 0))
}

// A case that ends before the place is malformed, and doesn't come here.
fn split(bytes: &[u8], place: usize) -> Result<(&[u8], &[u8]), Error> {
    bytes.split_at_checked(place).ok_or(Error::Malformed)
}

// Payload two is two partial sums.
fn joined(two: &[u8]) -> Result<Outcome<Sum>, Error> {
    let (a, rest) = partial(two)?;
    let (b, _) = partial(rest)?;
    Ok(join(a, b))
}

// Beside a refusal stands the left sum.
fn join(a: Partial, b: Partial) -> Outcome<Sum> {
    match folds::join(a, b) {
        Ok(sum) => Outcome(Verdict::Good, Sum(sum)),
        Err(unjoined) => Outcome(unjoined.verdict, Sum(unjoined.left)),
    }
}

// The partial sum that bytes begin with, and what stands behind it.
fn partial(bytes: &[u8]) -> Result<(Partial, &[u8]), Error> {
    let (fold, rest) = front(bytes)?;
    let (length, rest) = front(rest)?;
    let sum = Partial {
        fold: Fold(u16::from_be_bytes(*fold)),
        length: u64::from_be_bytes(*length),
    };
    Ok((sum, rest))
}

// The lines of the program `judge_capture` for an input, decided as it does. There are no more turns than bytes and one.
fn printed(rt: &impl Print, input: &[u8]) -> io::Result<()> {
    let mut state = State::start();
    let mut rest = input;
    for _ in 0..=input.len() {
        let Some(size) = state.want() else {
            break;
        };
        let (piece, behind) = rest.split_at(size.min(rest.len()));
        show(rt, &mut state, piece)?;
        rest = behind;
    }
    Ok(())
}

// Prints the line that follows from some bytes, if there is one, and goes on to the next state.
fn show(rt: &impl Print, state: &mut State, bytes: &[u8]) -> io::Result<()> {
    let mut out = [0u8; lines::LINE];
    let written = state.feed(bytes, &mut out);
    rt.write_all(&out[..written])
}
