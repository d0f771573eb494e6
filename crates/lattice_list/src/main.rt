// `lattice-list`: reads a request from standard input, and prints the lattice that it asks for, or that it is refused.
// Where a read or a write fails, it ends with status 1.
#![tactic(auto)]

use bracket_list::program::{AnswerError, answer};

fn main(rt: HostRuntime) -> Result<(), AnswerError> {
    answer(&mut rt.stdin(), &mut rt.stdout())
}
