//! Children that stand under a mark.
ghost use Rattle.std.specs.Prelude.{◌≡◌, ◌∷◌, ◌<◌, [], IfNone, IfSome, length};
ghost use Rattle.at_model.specs.Drawers.{is_under as is_text};
ghost use Rattle.at_model.specs.Seeking.{is_in_drawer, those};
ghost use Rattle.at_class.specs.Keys.{key_view};
ghost use Rattle.at_store.specs.Marked.{told};
ghost use Rattle.at_store.specs.Tokens.{lent_view};
ghost use Rattle.at_store.specs.View.{memory_of};

use crate::entry::{Entry, class_at, token_at};
use crate::node::Node;
use crate::token::Token;
use at_class::{Key, mark_of};
use slab::Slab;

/// Whether it is a text under the mark.
pub(crate) fn is_text_under(value: Token, mark: u32) -> bool
    ensures { result ≡ is_text mark (lent_view value.entry) }
{
    match value {
        Token::Str(text, _) => mark_of(text) == mark,
        _ => false,
    }
}

/// Whether the node has the key, and the text of its key the mark.
pub(crate) fn is_under(slab: &Slab<Entry>, node: Node, key: Key, mark: u32) -> bool
    ensures { result ≡ is_in_drawer (told (memory_of slab.now)) (key_view key) mark node }
{
    if !key.has(class_at(slab, node)) {
        return false;
    }
    is_text_under(token_at(slab, node, key.token as usize), mark)
}

/// The first of the children that stands under the mark, of those that have the key, and the children behind it.
pub(crate) fn next_under<'s>(
    slab: &Slab<Entry>,
    children: &'s [Node],
    key: Key,
    mark: u32,
) -> Option<(Node, &'s [Node])>
    ensures found { IfSome result (λ found. those (is_in_drawer (told (memory_of slab.now)) (key_view key) mark) children.now
        ≡ found.0 ∷ those (is_in_drawer (told (memory_of slab.now)) (key_view key) mark) found.1.now) }
    ensures none { IfNone result (those (is_in_drawer (told (memory_of slab.now)) (key_view key) mark) children.now ≡ []) }
    ensures fewer { IfSome result (λ found. length found.1.now < length children.now) }
{
    let mut rest = children;
    while let Some((node, others)) = rest.split_first() {
        if is_under(slab, *node, key, mark) {
            return Some((*node, others));
        }
        rest = others;
    }
    None
}
