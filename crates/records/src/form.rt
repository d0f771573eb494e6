// How a record has its lists.
ghost use Rattle.std.specs.Prelude.{Bool, true, false, ◌≡◌, map};
ghost use Rattle.records.specs.Words.{reading};
ghost use Rattle.records.specs.Lists.{expected_list};

use crate::{Element, Fault, Reader};

// A type for each form, so that a function takes the form as a parameter for lists of any element.
pub trait ListForm {
    ghost HASHED: { Bool };

    fn expect<T: Element>(reader: &mut Reader, list: &[T]) -> Result<(), Fault>
        ensures { reading result reader.new ≡ expected_list HASHED T.BYTES (map T.word_of list.now) reader.old };
}

// A word for each element.
pub struct Words;

// A word for the hash of all elements.
pub struct Hashes;

impl ListForm for Words {
    ghost HASHED = { false };

    #[tactic(auto, unfolding(crate::specs::Lists::expected_list))]
    fn expect<T: Element>(reader: &mut Reader, list: &[T]) -> Result<(), Fault> {
        reader.expect_list(list)
    }
}

impl ListForm for Hashes {
    ghost HASHED = { true };

    #[tactic(auto, unfolding(crate::specs::Lists::expected_list))]
    fn expect<T: Element>(reader: &mut Reader, list: &[T]) -> Result<(), Fault> {
        reader.expect_hash(list)
    }
}
