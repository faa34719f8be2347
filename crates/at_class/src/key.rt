//! Which elements of a list have a key, and the marks of texts.
ghost use Rattle.std.specs.Prelude.{◌≡◌};
ghost use Rattle.at_model.specs.Drawers.{mark_of};

use crate::part::ClassId;

/// Which elements of a list have a key, and which token of them it is: those whose class is in a set of neighbouring ones.
#[derive(Clone, Copy, PartialEq, Eq, Hash, Debug)]
pub struct Key {
    /// A quarter of the first class of the set.
    pub first: u8,
    /// The position of the token.
    pub token: u8,
    /// The set: a bit for each class, from the first one on.
    pub classes: u32,
}

impl Key {
    ghost use Rattle.std.specs.Prelude.{◌≡◌};
    ghost use Rattle.at_model.specs.Drawers.{has_key};
    ghost use Rattle.at_class.specs.Keys.{key_view};

    /// Whether elements of the class have the key.
    pub fn has(&self, class: ClassId) -> bool
        ensures { result ≡ has_key (key_view self.now) class }
    {
        let first = self.first as usize * 4;
        let class = class.index();
        if class < first {
            return false;
        }
        if class - first > 31 {
            return false;
        }
        (self.classes >> (class - first)) % 2 == 1
    }
}

/// The mark under which a text stands, a number made of its bytes; texts may share one.
#[tactic(auto, unfolding(at_model::specs::Drawers::mark_of))]
pub fn mark_of(text: &str) -> u32
    ensures { result ≡ mark_of text.now }
{
    let mut mark = 0u32;
    for byte in text.as_bytes() {
        mark = mark.wrapping_mul(33).wrapping_add(*byte as u32 + 1);
    }
    mark
}
