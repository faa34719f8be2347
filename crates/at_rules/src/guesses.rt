//! Guesses at the numbers of names. Each is looked at before it is believed, so nothing rests on how they are made.

use indexmap::IndexSet;
use std::alloc::{AllocError, Global};

/// How many guesses there are: one for each mark.
const MARKS: usize = 256;

/// The mark of a name, made of its first and last byte and of how many it has.
fn mark(name: &str) -> usize {
    let length = u8::try_from(name.len()).unwrap_or(u8::MAX);
    match name.as_bytes() {
        [first, .., last] => {
            let ends = first.wrapping_mul(3).wrapping_add(last.wrapping_mul(5));
            usize::from(ends.wrapping_add(length.wrapping_mul(31)))
        }
        _ => 0,
    }
}

/// By mark a number of a name that has it.
#[derive(Drop)]
pub struct Guesses {
    numbers: Vec<usize>,
}

impl Guesses {
    /// A guess for each of the names, where no later one has its mark; none at all where memory is wanting.
    pub fn of(alloc: Global, names: &IndexSet<String>) -> Guesses {
        match Guesses::filled(alloc, names) {
            Ok(guesses) => guesses,
            Err(_) => Guesses {
                numbers: Vec::new(alloc),
            },
        }
    }

    fn filled(alloc: Global, names: &IndexSet<String>) -> Result<Guesses, AllocError> {
        let mut numbers = Vec::new(alloc);
        for mark in 0..MARKS {
            numbers.push(0)?;
        }
        for number in 0..names.len() {
            guess(&mut numbers, names, number);
        }
        Ok(Guesses { numbers })
    }

    /// The number that the name may have.
    pub fn number(&self, name: &str) -> Option<usize> {
        match self.numbers.get(mark(name)) {
            Some(number) => Some(*number),
            None => None,
        }
    }
}

/// Guesses the number for the mark of its name.
fn guess(numbers: &mut [usize], names: &IndexSet<String>, number: usize) {
    if let Some(name) = names.get_index(number)
        && let Some(guessed) = numbers.get_mut(mark(name.as_str()))
    {
        *guessed = number;
    }
}
