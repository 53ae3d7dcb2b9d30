// Judges a capture on standard input: a line for each whole record as soon as it is there, and the totals at the end.
//
// What is printed, and when to stop, is decided by the crate `lines`. Here it is only read and written.
#![tactic(auto)]

ghost use Rattle.std.specs.Prelude.{◌<◌, IfOk, length, take};
ghost use Rattle.std.specs.Io.{ReadsAtMost};
ghost use Rattle.std.specs.Io.KnownBytes.{Consumes, IsAtEnd};

use lines::State;
use std::io::Read;
use std::process::ExitCode;
use std::{fmt, io};

// What failed, and why.
#[derive(Debug, Drop)]
enum Failure {
    Read(io::Error),
    Write(io::Error),
}

impl fmt::Display for Failure {
    fn fmt<W: fmt::Write>(&self, f: &mut fmt::Formatter<W>) -> fmt::Result {
        match self {
            Failure::Read(error) => write!(f, "cannot read standard input: {error}"),
            Failure::Write(error) => write!(f, "cannot write standard output: {error}"),
        }
    }
}

fn main(rt: HostRuntime) -> ExitCode {
    let mut input = rt.stdin();
    match run(&rt, &mut input) {
        Ok(()) => ExitCode::SUCCESS,
        Err(failure) => {
            let _ = eprintln!(rt; "judge_capture: {failure}");
            ExitCode::FAILURE
        }
    }
}

// Reads what is wanted next, and prints the line that follows from it, if there is one, until nothing more is wanted.
fn run(rt: &impl Print, input: &mut impl Read) -> Result<(), Failure> {
    let mut state = State::start();
    let mut bytes = [0u8; lines::PIECE];
    let mut out = [0u8; lines::LINE];
    for _ in 0..u64::MAX {
        let Some(size) = state.want() else { break };
        let count = read(input, &mut bytes[..size.min(lines::PIECE)]).map_err(Failure::Read)?;
        let written = state.feed(&bytes[..count], &mut out);
        rt.write_all(&out[..written]).map_err(Failure::Write)?;
    }
    Ok(())
}

// Reads until the buffer is full or the input ends, and answers how many bytes it read.
// kept: `read_exact` doesn't say how many there were before the end, and `read_to_end` needs the heap.
fn read<R: Read>(input: &mut R, buffer: &mut [u8]) -> io::Result<usize>
    ensures bound { ReadsAtMost result buffer.new }
    ensures bytes { IfOk result (λ n. Consumes (R.remaining input.old) (R.remaining input.new) (take n buffer.new)) }
    ensures end { IfOk result (λ n. n < length buffer.old → IsAtEnd (R.remaining input.new)) }
{
    let mut count: usize = 0;
    while count < buffer.len() {
        let more = input.read(&mut buffer[count..])?;
        if more == 0 {
            break;
        }
        count += more;
    }
    Ok(count)
}
