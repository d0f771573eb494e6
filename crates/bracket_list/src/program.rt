// The program `lattice-list`, over any input and output.
ghost use Rattle.std.specs.Prelude.{◌≡◌, IfOk, IfSome};
ghost use Rattle.bracket_list.specs.LatticeList.{lattice_listing};
ghost use Rattle.bracket_list.specs.Program.{Answers};

use super::{Lines, lattice_list};
use reading::{Filling, read_full};
use std::io;
use std::io::{Read, Write};

// Why a request has no answer.
#[derive(Debug, Drop)]
pub enum AnswerError {
    Unread(io::Error),
    Unprinted(io::Error),
}

// What is to be printed for the input.
fn read_listing<R: Read>(input: &mut R) -> io::Result<Lines>
    ensures { IfOk result (λ lines. IfSome (R.remaining input.old) (λ bytes. lines.items ≡ lattice_listing bytes)) }
{
    // A request is twelve bytes: a thirteenth shows that there are more.
    let mut text = [0u8; 13];
    match read_full(input, &mut text) {
        Filling::Full => Ok(lattice_list(&text)),
        Filling::Ended(size) => Ok(lattice_list(&text[..size])),
        Filling::Failed(_, error) => Err(error),
    }
}

// Reads a request, and prints the lattice that it asks for, or that it is refused.
pub fn answer<R: Read, W: Write>(input: &mut R, output: &mut W) -> Result<(), AnswerError>
    ensures { Answers (R.remaining input.old) (W.contents output.old) (W.contents output.new) result }
{
    let lines = read_listing(input).map_err(AnswerError::Unread)?;
    output
        .write_all(lines.as_slice())
        .map_err(AnswerError::Unprinted)
}
