// Records of calls, as text: one to a line, words with one space between them. A word is a number in hexadecimal digits, or `nan`.
// A reader takes a line's words from the left. A word that is malformed, or is not what is expected, is a fault, and `?` reads nothing behind it.
#![tactic(auto)]

mod element;
mod form;
mod hash;
mod reader;
mod word;

ghost use Rattle.std.specs.Prelude.{◌≡◌};
ghost use Rattle.std.specs.List.{list_all};
ghost use Rattle.records.specs.Worked.{WorkedRecords};

pub use element::Element;
pub use form::{Hashes, ListForm, Words};
pub use reader::{Fault, Reader};

// Whether every place holds one value, by its type's own equality.
pub fn all_are<T: PartialEq + Copy>(list: &[T], value: T) -> bool
    ensures { result ≡ list_all (λ x. T.eq x value) list.now }
{
    list.iter().all(|x| *x == value)
}

/// What the definitions give of small texts and lists.
pub fn worked_records()
    ensures { WorkedRecords }
{}
