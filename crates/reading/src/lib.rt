// Input read into a buffer that the caller lends: nothing is allocated.
#![tactic(auto)]

ghost use Rattle.reading.specs.Filling.{Fills, IsWholeSize};

use std::io;
use std::io::{ErrorKind, Read};

// How the filling of a text ended, and how many bytes were read where it is not full.
#[derive(Drop)]
pub enum Filling {
    // The text is full: whether more follows is not known.
    Full,
    // No byte is left.
    Ended(usize),
    // An interrupted read too.
    Failed(usize, io::Error),
}

impl Filling {
    // How many bytes the input had, all of which were read. A text that is full is an error too: it needs one place more than the input.
    pub fn whole_size(self) -> io::Result<usize>
        ensures { IsWholeSize self result }
    {
        match self {
            Filling::Full => Err(io::Error::from(ErrorKind::FileTooLarge)),
            Filling::Ended(size) => Ok(size),
            Filling::Failed(_, error) => Err(error),
        }
    }
}

// Reads until the text is full, the input ends or a read fails. Behind the bytes read the text may have changed, as std's `read` leaves it open.
pub fn read_full<R: Read>(input: &mut R, text: &mut [u8]) -> Filling
    ensures { Fills (R.remaining input.old) (R.remaining input.new) text.new result }
{
    let mut done = 0;
    // By hand, since std's loops over `read` do not say how much was read before a failure.
    while done < text.len() {
        match input.read(&mut text[done..]) {
            Ok(0) => return Filling::Ended(done),
            Ok(n) => done += n,
            Err(error) => return Filling::Failed(done, error),
        }
    }
    Filling::Full
}
