// What the stored list is read by.
use std::io::{self, Read};

// Why a list is read no further.
#[derive(Debug, Drop)]
pub(crate) enum Stop {
    Cut, // too few bytes are left, or more are said to come than there is room for
    Io(io::Error),
}

impl From<io::Error> for Stop {
    fn from(error: io::Error) -> Stop {
        Stop::Io(error)
    }
}

// As much of this buffer as the list has bytes left, and how many those are.
pub(crate) fn read_up_to(reader: &mut impl Read, bytes: &mut [u8]) -> io::Result<usize> {
    let mut done = 0;
    while done < bytes.len() {
        match reader.read(&mut bytes[done..])? {
            0 => break,
            n => done += n,
        }
    }
    Ok(done)
}

// The whole of it.
pub(crate) fn fill(reader: &mut impl Read, bytes: &mut [u8]) -> Result<(), Stop> {
    if read_up_to(reader, bytes)? < bytes.len() {
        return Err(Stop::Cut);
    }
    Ok(())
}
