// What `lattice-list` prints, held to the listings of the Rust source for each frequency, in data/, and to a refusal for malformed requests.
#![tactic(auto)]

use reading::read_full;
use std::fs::File;
use std::io;
use std::rt::Files;

// One line a case: its name, and whether the input prints what is expected.
fn report(rt: &impl Print, name: &str, input: &[u8], expected: &[u8]) -> io::Result<()> {
    if bracket_list::lattice_list(input).as_slice() == expected {
        println!(rt; "{name}: as expected")
    } else {
        println!(rt; "{name}: differs")
    }
}

// An input that prints the text of a file; an error where the file is not read.
fn listed(rt: &(impl Files + Print), name: &str, input: &[u8]) -> io::Result<()> {
    let mut expected = [0u8; 16384];
    let size = read_full(&mut File::open(rt, name)?, &mut expected).whole_size()?;
    report(rt, name, input, &expected[..size])
}

const LISTED: [(&str, &[u8]); 4] = [
    ("frequency_1", b"(lattice 1)\n"),
    ("frequency_2", b"(lattice 2)\n"),
    ("frequency_3", b"(lattice 3)\n"),
    ("frequency_4", b"(lattice 4)\n"),
];

const NUMBERS: [(&str, &[u8]); 9] = [
    ("frequency 0", b"(lattice 0)\n"),
    ("frequency 5", b"(lattice 5)\n"),
    ("frequency 9", b"(lattice 9)\n"),
    ("frequency 80", b"(lattice 80)\n"),
    ("leading zero", b"(lattice 01)\n"),
    ("minus", b"(lattice -1)\n"),
    ("plus", b"(lattice +1)\n"),
    ("a letter", b"(lattice a)\n"),
    ("no number", b"(lattice )\n"),
];

const WORDS: [(&str, &[u8]); 9] = [
    ("upper case", b"(Lattice 1)\n"),
    ("another word", b"(latrice 1)\n"),
    ("no word", b"(1)\n"),
    ("no brackets", b"lattice 1\n"),
    ("other brackets", b"[lattice 1]\n"),
    ("no space", b"(lattice1)\n"),
    ("two spaces", b"(lattice  1)\n"),
    ("a tab", b"(lattice\t1)\n"),
    ("space before", b" (lattice 1)\n"),
];

const ENDS: [(&str, &[u8]); 9] = [
    ("nothing", b""),
    ("a line feed alone", b"\n"),
    ("early end", b"(lattice 1"),
    ("no line feed", b"(lattice 1)"),
    ("carriage return", b"(lattice 1)\r\n"),
    ("space behind", b"(lattice 1) \n"),
    ("a byte behind", b"(lattice 1)\n "),
    ("two requests", b"(lattice 1)\n(lattice 1)\n"),
    ("a zero byte", b"(lattice 1)\x00"),
];

fn main(rt: HostRuntime) -> io::Result<()> {
    for (name, input) in &LISTED {
        listed(&rt, name, input)?;
    }
    for (name, input) in NUMBERS.iter().chain(&WORDS).chain(&ENDS) {
        report(&rt, name, input, b"(refused 1)\n")?;
    }
    Ok(())
}
