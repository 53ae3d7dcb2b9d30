// Why the answers end before the input does.
use std::io;

#[derive(Debug, Drop)]
pub enum Error {
    Io(io::Error),
    Malformed,
}

impl From<io::Error> for Error {
    fn from(error: io::Error) -> Error {
        Error::Io(error)
    }
}
