// A line's words, taken from the left.
ghost use Rattle.std.specs.Prelude.{◌≡◌, ◌≤◌, length, map, IfOk};
ghost use Rattle.records.specs.At.{At, reader_at};
ghost use Rattle.records.specs.Words.{reading, next_word, word_at_most, element_read, expected, finished, line_end};
ghost use Rattle.records.specs.Lists.{expected_each, ListRead};
ghost use Rattle.records.specs.Hash.{hash_of};

use crate::word::{line_goes_on, line_length, next_text, token};
use crate::{Element, hash};
use std::marker::Model;

// Why a word is not taken.
#[derive(Clone, Copy, Debug, PartialEq, Eq)]
pub enum Fault {
    // No word stands there, or one that neither a space nor the line's end follows.
    Malformed,
    // Its number is greater than that of any value of its type.
    TooGreat,
    // It is not the word that is expected.
    Different,
    // It stands where the line should end.
    TooMany,
}

// A text, and what is left of it.
#[derive(Drop)]
pub struct Reader<'a> {
    text: &'a [u8],
    rest: &'a [u8],
}

impl<'a> Model for Reader<'a> {
    ghost use Rattle.records.specs.At.{At, reader_at, place_before, IsRest};

    ghost Value = { At };

    ghost view = { λ r. reader_at r.text.now (place_before r.text.now r.rest.now) };

    ghost invariant = { λ r. IsRest r.text.now r.rest.now };
}

impl<'a> Reader<'a> {
    pub fn new(text: &'a [u8]) -> Self
        ensures { result ≡ reader_at text.now 0 }
    {
        Reader { text, rest: text }
    }

    // The place in the text of the next word.
    pub fn place(&self) -> usize
        ensures { result ≡ self.now.place }
    {
        self.text.len() - self.rest.len()
    }

    // The next word; the reader passes it, and the space that follows. A malformed word is not passed.
    fn take_word(&mut self) -> Result<u64, Fault>
        ensures { reading result self.new ≡ next_word self.old }
    {
        let (number, behind) = token(self.rest).ok_or(Fault::Malformed)?;
        self.rest = next_text(behind).ok_or(Fault::Malformed)?;
        Ok(number)
    }

    // The next word, its number at most `most`.
    #[tactic(auto, unfolding(crate::specs::Words::word_at_most))]
    fn take_at_most(&mut self, most: u64) -> Result<u64, Fault>
        ensures value { reading result self.new ≡ word_at_most most self.old }
        ensures most { IfOk result (λ number. number ≤ most) }
    {
        let number = self.take_word()?;
        if number > most {
            return Err(Fault::TooGreat);
        }
        Ok(number)
    }

    // The next word is a value of its type.
    pub fn take<T: Element>(&mut self) -> Result<T, Fault>
        ensures { reading result self.new ≡ element_read T.MOST T.of_word self.old }
    {
        let number = self.take_at_most(T::MOST)?;
        Ok(T::from_word(number))
    }

    // The next word is a number of places, of which there are at most so many.
    pub fn take_length(&mut self, most: usize) -> Result<usize, Fault>
        ensures value { reading result self.new ≡ word_at_most most self.old }
        ensures places_le_most { IfOk result (λ places. places ≤ most) }
    {
        let places = self.take_at_most(most as u64)?;
        Ok(places as usize)
    }

    // The next word has this number.
    #[tactic(auto, unfolding(crate::specs::Words::expected))]
    fn expect_word(&mut self, number: u64) -> Result<(), Fault>
        ensures { reading result self.new ≡ expected number self.old }
    {
        let found = self.take_word()?;
        if found != number {
            return Err(Fault::Different);
        }
        Ok(())
    }

    // The next word is this value's.
    pub fn expect<T: Element>(&mut self, value: T) -> Result<(), Fault>
        ensures { reading result self.new ≡ expected (T.word_of value) self.old }
    {
        self.expect_word(value.word())
    }

    // A word for each element. Behind a fault the places hold the value of the word 0.
    pub fn take_list<T: Element>(&mut self, list: &mut [T]) -> Result<(), Fault>
        ensures { ListRead T.MOST T.of_word self.old (length list.old) (reading result self.new) list.new }
    {
        list.fill_with(|| T::from_word(0));
        for x in list.iter_mut() {
            *x = self.take()?;
        }
        Ok(())
    }

    // A word for each element.
    pub fn expect_list<T: Element>(&mut self, list: &[T]) -> Result<(), Fault>
        ensures { reading result self.new ≡ expected_each (map T.word_of list.now) self.old }
    {
        for x in list {
            self.expect(*x)?;
        }
        Ok(())
    }

    // A word for the hash of all elements.
    pub fn expect_hash<T: Element>(&mut self, list: &[T]) -> Result<(), Fault>
        ensures { reading result self.new ≡ expected (hash_of T.BYTES (map T.word_of list.now)) self.old }
    {
        self.expect_word(hash::hash(list))
    }

    // The line is read: no byte of it is left.
    #[tactic(auto, using(crate::proofs::Tokens::line_left))]
    pub fn finish(&self) -> Result<(), Fault>
        ensures { result ≡ finished self.now }
    {
        if line_goes_on(self.rest) {
            return Err(Fault::TooMany);
        }
        Ok(())
    }

    // Passes what is left of the line.
    pub fn skip_line(&mut self)
        ensures { self.new ≡ reader_at self.old.text (line_end self.old.text self.old.place) }
    {
        self.rest = &self.rest[line_length(self.rest)..];
    }
}
