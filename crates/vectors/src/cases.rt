// Cases, as they are read.
use crate::buffers::{LARGEST, read};
use crate::error::Error;
use crate::operation::{Operation, Source};
use std::io::Read;

// How many bytes stand before the payloads.
const HEAD: usize = 18;

// What is asked for, and the sizes of the payloads, which follow.
#[derive(Clone, Copy)]
pub struct Case {
    pub operation: Operation,
    pub source: Source,
    pub one: usize,
    pub two: usize,
}

impl Case {
    // Reads the next case up to its payloads, unless the input ends before it.
    pub fn next(input: &mut impl Read) -> Result<Option<Case>, Error> {
        let mut bytes = [0u8; HEAD];
        let count = read(input, &mut bytes)?;
        match count {
            0 => Ok(None),
            HEAD => Ok(Some(Case::new(&bytes)?)),
            _ => Err(Error::Malformed),
        }
    }

    fn new(bytes: &[u8]) -> Result<Self, Error> {
        let (&[operation, source], rest) = front::<2>(bytes)?;
        let (a, rest) = front(rest)?;
        let (one, rest) = front(rest)?;
        let (two, _) = front(rest)?;
        let case = Case {
            operation: Operation::new(operation, u64::from_be_bytes(*a))?,
            source: Source::try_from(source)?,
            one: u32::from_be_bytes(*one) as usize,
            two: u32::from_be_bytes(*two) as usize,
        };
        if case.one <= LARGEST && case.two <= LARGEST && case.operation.takes(case.two as u64) {
            Ok(case)
        } else {
            Err(Error::Malformed)
        }
    }
}

// The first bytes as an array, and those behind them.
pub fn front<const N: usize>(bytes: &[u8]) -> Result<(&[u8; N], &[u8]), Error> {
    bytes.split_first_chunk().ok_or(Error::Malformed)
}
