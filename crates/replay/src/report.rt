// Counts of a file's records, and the line that the file gets.
ghost use Rattle.std.specs.Prelude.{◌<◌, ◌^◌};

use reading::read_full;
use records::{Fault, Reader};
use std::fs::File;
use std::io;
use std::rt::Files;

// The first record that differs and the first that does not are remembered by their numbers, which are their lines'.
#[derive(Clone, Copy, Default)]
pub struct Tally {
    pub records: u64,
    pub differences: u64,
    pub first_different: Option<u64>,
    pub first_same: Option<u64>,
}

impl Tally {
    // Of a file's records; an error where the file is not read whole, and so where it leaves no place of the room.
    // Room for its text is a parameter: a proof about a number as large as that below would list as many bytes.
    // `IsAlwaysCallable`, here and below: a function that calls a closure has to ask for it.
    pub fn of_file_within<const ROOM: usize, F: FnOnce(&[u8]) -> Tally>(
        files: &impl Files,
        name: &str,
        replay: F,
    ) -> io::Result<Tally>
        requires room { ROOM < 2 ^ 32 }
        requires callable { F.IsAlwaysCallable replay }
    {
        let mut text = [0u8; ROOM];
        let size = read_full(&mut File::open(files, name)?, &mut text).whole_size()?;
        Ok(replay(&text[..size]))
    }

    pub fn of_file<F: FnOnce(&[u8]) -> Tally>(
        files: &impl Files,
        name: &str,
        replay: F,
    ) -> io::Result<Tally>
        requires { F.IsAlwaysCallable replay }
    {
        Self::of_file_within::<524288, F>(files, name, replay)
    }

    // One record more, and what came of it.
    pub fn counted(self, outcome: Result<(), Fault>) -> Self {
        let records = self.records.wrapping_add(1);
        match outcome {
            Ok(()) => Tally {
                records,
                first_same: self.first_same.or(Some(records)),
                ..self
            },
            Err(_) => Tally {
                records,
                differences: self.differences.wrapping_add(1),
                first_different: self.first_different.or(Some(records)),
                ..self
            },
        }
    }

    // Each line of a text is a record, which ends where its line does.
    pub fn count_lines<F: FnMut(&mut Reader) -> Result<(), Fault>>(
        self,
        text: &[u8],
        mut replay: F,
    ) -> Self
        requires { F.IsAlwaysCallable replay }
    {
        let mut tally = self;
        for line in text.split_inclusive(|byte| *byte == b'\n') {
            let mut reader = Reader::new(line);
            let outcome = replay(&mut reader);
            tally = tally.counted(outcome.and_then(|()| reader.finish()));
        }
        tally
    }
}

// The first line of a text, and the others.
pub fn first_line(text: &[u8]) -> (&[u8], &[u8]) {
    match text.iter().position(|byte| *byte == b'\n') {
        Some(place) => text.split_at(place + 1),
        None => text.split_at(text.len()),
    }
}

// The counts, and a line by its number where one is remembered.
fn print_tally(
    rt: &impl Print,
    name: &str,
    tally: Tally,
    noun: &str,
    words: &str,
    line: Option<u64>,
) -> io::Result<()> {
    print!(rt;
        "{name}: {} records, {} {noun}",
        tally.records, tally.differences
    )?;
    if let Some(line) = line {
        print!(rt; ", {words} in line {line}")?;
    }
    println!(rt; "")
}

pub fn print_differences(rt: &impl Print, name: &str, tally: Tally) -> io::Result<()> {
    print_tally(
        rt,
        name,
        tally,
        "differences",
        "the first",
        tally.first_different,
    )
}

// For a file whose records are all wrong on purpose: each is to differ.
pub fn print_noticed(rt: &impl Print, name: &str, tally: Tally) -> io::Result<()> {
    print_tally(
        rt,
        name,
        tally,
        "noticed",
        "the first unnoticed",
        tally.first_same,
    )
}
