// Stored cases in, answers out: each case calls the function of the library that it names. tests/second/CASES.md has the
// format.
//
// The answers are held to those of the second implementation. What each function answers is proved where it stands; of
// this program it is proved that nothing in it goes wrong.
#![tactic(auto)]

mod answers;
mod buffers;
mod cases;
mod error;
mod operation;
mod shown;

use answers::answer;
use buffers::{Buffers, Bytes};
use cases::Case;
use error::Error;
use std::io;
use std::io::Read;

fn main(rt: HostRuntime) -> io::Result<()> {
    match answer_all(&rt, &mut rt.stdin()) {
        Err(Error::Malformed) => println!(rt; "bad case"),
        Err(Error::Io(error)) => Err(error),
        Ok(()) => Ok(()),
    }
}

// Reads case after case, and prints the answer to each. A malformed case ends the answers.
fn answer_all(rt: &impl Print, input: &mut impl Read) -> Result<(), Error> {
    let mut buffers = Buffers::new();
    let mut two = Bytes::new();
    for _ in 0..u64::MAX {
        let Some(case) = Case::next(input)? else {
            break;
        };
        buffers.lay(case.source, input, case.one, &mut two)?;
        two.read(input, case.two)?;
        answer(
            rt,
            case.operation,
            buffers.present.as_mut_slice(),
            two.as_slice(),
        )?;
    }
    Ok(())
}
