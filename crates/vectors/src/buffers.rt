// Payloads and buffers. Each is an array's first bytes: this program uses no heap.
use crate::error::Error;
use crate::operation::Source;
use std::io;
use std::io::Read;

// The largest payload, and the most places of a verdict buffer.
pub const LARGEST: usize = 131072;

// Some bytes at the start of an array.
#[derive(Drop)]
pub struct Bytes {
    array: [u8; LARGEST],
    size: usize,
}

impl Bytes {
    #[inline(always)]
    pub fn new() -> Self {
        Bytes {
            array: [0; LARGEST],
            size: 0,
        }
    }

    // Reads so many bytes. A case that ends before them is malformed.
    pub fn read(&mut self, input: &mut impl Read, size: usize) -> Result<(), Error> {
        self.size = size;
        if read(input, self.as_mut_slice())? == size {
            Ok(())
        } else {
            Err(Error::Malformed)
        }
    }

    pub fn as_slice(&self) -> &[u8] {
        &self.array[..self.size.min(LARGEST)]
    }

    pub fn as_mut_slice(&mut self) -> &mut [u8] {
        let size = self.size.min(LARGEST);
        &mut self.array[..size]
    }

    // Takes over the bytes of another.
    fn copy(&mut self, other: &Bytes) {
        let size = other.size.min(LARGEST);
        self.array[..size].copy_from_slice(&other.array[..size]);
        self.size = size;
    }
}

// The buffer that is handed on from case to case: the present one, and the last that was given, as it was given.
#[derive(Drop)]
pub struct Buffers {
    pub present: Bytes,
    given: Bytes,
}

impl Buffers {
    #[inline(always)]
    pub fn new() -> Self {
        Buffers {
            present: Bytes::new(),
            given: Bytes::new(),
        }
    }

    // Reads payload one, of so many bytes, and makes a case's buffer the present one. Unless the payload is a buffer, it is
    // ignored, in a room that is lent for it.
    pub fn lay(
        &mut self,
        source: Source,
        input: &mut impl Read,
        size: usize,
        ignored: &mut Bytes,
    ) -> Result<(), Error> {
        match source {
            Source::Given => {
                self.given.read(input, size)?;
                self.present.copy(&self.given);
            }
            Source::Left => ignored.read(input, size)?,
            Source::Again => {
                ignored.read(input, size)?;
                self.present.copy(&self.given);
            }
        }
        Ok(())
    }
}

// Reads until the buffer is full or the input ends, and answers how many bytes it read.
// kept: `read_exact` doesn't say how many there were before the end, and `read_to_end` needs the heap.
pub fn read(input: &mut impl Read, buffer: &mut [u8]) -> io::Result<usize> {
    let mut count: usize = 0;
    while count < buffer.len() {
        let more = input.read(&mut buffer[count..])?;
        if more == 0 {
            break;
        }
        count += more;
    }
    Ok(count)
}
