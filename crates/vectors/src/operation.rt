// What a case asks for.
ghost use Rattle.std.specs.Prelude.{◌<◌};

use crate::buffers::LARGEST;
use crate::error::Error;
use sums::{Field, Fold};

// The bytes of a 32-bit number, of a partial sum (a 16-bit fold and a 64-bit length), and of a fragment's record (a 64-bit
// offset and a 64-bit length).
const NUMBER: u64 = 4;

const SUM: u64 = 10;

const RECORD: u64 = 16;

// Which bytes are the buffer: payload one, or what the case before left, or the last one given.
#[derive(Clone, Copy)]
pub enum Source {
    Given,
    Left,
    Again,
}

impl TryFrom<u8> for Source {
    type Error = Error;

    fn try_from(code: u8) -> Result<Self, Error> {
        match code {
            0 => Ok(Source::Given),
            1 => Ok(Source::Left),
            2 => Ok(Source::Again),
            _ => Err(Error::Malformed),
        }
    }
}

// The operations, each with what the number a says of it.
#[derive(Clone, Copy)]
pub enum Operation {
    Judge,
    Mend,
    LowerLifetime,
    SetAddress { side: u32 },
    SetStretch { place: usize },
    JudgeCapture { places: usize },
    Chain,
    Sum,
    FoldAt { odd: bool },
    Field,
    Update { field: Field, old: Fold, new: Fold },
    Join,
    Printed,
    ExchangePrefix { side: u32, expected: usize },
    JudgeFragments,
    Build(Ask),
}

// What a packet is to be built with, and the sizes of its addresses, which stand in payload two.
#[derive(Clone, Copy)]
pub struct Ask {
    pub source_port: u16,
    pub destination_port: u16,
    pub lifetime: u8,
    pub source_size: u16,
    pub destination_size: u16,
}

impl Operation {
    pub fn new(code: u8, a: u64) -> Result<Self, Error> {
        let operation = match code {
            0 => Operation::Judge,
            1 => Operation::Mend,
            2 => Operation::LowerLifetime,
            3 => Operation::SetAddress { side: low_half(a) },
            4 => Operation::SetStretch { place: a as usize },
            5 if a <= LARGEST as u64 => Operation::JudgeCapture { places: a as usize },
            6 => Operation::Chain,
            7 => Operation::Sum,
            8 => Operation::FoldAt { odd: a % 2 == 1 },
            9 => Operation::Field,
            10 => Operation::Update {
                field: Field(word_from(a, 32)),
                old: Fold(word_from(a, 16)),
                new: Fold(word_from(a, 0)),
            },
            11 => Operation::Join,
            12 => Operation::Printed,
            13 => Operation::ExchangePrefix {
                side: low_half(a),
                expected: (a >> 32) as usize,
            },
            14 => Operation::JudgeFragments,
            15 => Operation::Build(Ask {
                source_port: word_from(a, 48),
                destination_port: word_from(a, 32),
                lifetime: (a >> 24 & 0xff) as u8,
                source_size: (a >> 12 & 0xfff) as u16,
                destination_size: (a & 0xfff) as u16,
            }),
            _ => return Err(Error::Malformed),
        };
        Ok(operation)
    }

    // Whether payload two may have so many bytes.
    pub fn takes(self, two: u64) -> bool {
        match self {
            Operation::Chain => two % NUMBER == 0,
            Operation::Join => two == 2 * SUM,
            Operation::ExchangePrefix { expected, .. } => expected as u64 <= two,
            Operation::JudgeFragments => two % RECORD == 0,
            Operation::Build(ask) => {
                u64::from(ask.source_size) + u64::from(ask.destination_size) <= two
            }
            _ => true,
        }
    }
}

fn low_half(a: u64) -> u32 {
    (a & 0xffff_ffff) as u32
}

// The 16 bits of a number from a place on.
fn word_from(a: u64, place: u32) -> u16
    requires { place < 64 }
{
    (a >> place & 0xffff) as u16
}
