//! The key by which each attribute tests.

ghost use Rattle.std.specs.Prelude.{◌≡◌, ℕ, ◌∷◌, [], false, true, None, Some, IfSome, IsTrue};
ghost use Rattle.at_model.specs.Bodies.{Equals, Name, This, TokenOf, TruthLiteral};
ghost use Rattle.at_model.specs.Classes.{fits};
ghost use Rattle.at_model.specs.Drawers.{has_key};
ghost use Rattle.at_model.specs.Machine.{parameters_of};
ghost use Rattle.at_model.specs.Rules.{is_inherited, start_of, Text};
ghost use Rattle.at_class.specs.Keys.{key_view};
ghost use Rattle.at_rules.specs.Bodies.{body_view};
ghost use Rattle.at_seek.specs.Finding.{AreKeys, Compares, IsKeyOf, IsTestOf};
ghost use Rattle.at_seek.specs.Sought.{HasTest};

use crate::shapes::is_text;
use at_class::{ClassId, ClassTable, Key};
use at_rules::{AttrId, Body, Kind, Rules};
use std::alloc::Global;

/// Of each attribute the key by which it tests its argument, if by any. Where memory is wanting the last attributes are left out.
pub(crate) fn keys_of(alloc: Global, rules: &Rules) -> Vec<Option<Key>>
    ensures { AreKeys rules.now result.items }
{
    let mut keys = Vec::new(alloc);
    for position in 0..rules.len() {
        let key = key_of(rules, AttrId::new(position));
        match keys.push(key) {
            Ok(()) => {}
            Err(_) => return keys,
        }
    }
    keys
}

/// The key by which the attribute tests, if by any.
fn key_of(rules: &Rules, attribute: AttrId) -> Option<Key>
    ensures { IfSome result (λ key. IsKeyOf rules.now (key_view key) attribute) }
{
    if !may_test(rules, attribute) {
        return None;
    }
    let above = rules.class_of(attribute)?;
    let key = guessed(rules, above, attribute)?;
    if all_test(rules, above, attribute, &key) {
        return Some(key);
    }
    None
}

/// Whether it is a node's own, isn't kept nor circular, and has one parameter, a text.
fn may_test(rules: &Rules, attribute: AttrId) -> bool
    ensures { IsTrue result → (is_inherited rules.now attribute ≡ false) × (start_of rules.now attribute ≡ None)
        × (parameters_of rules.now attribute ≡ Text ∷ []) }
{
    if rules.is_inherited(attribute) {
        return false;
    }
    if rules.is_lazy(attribute) {
        return false;
    }
    if rules.start_of(attribute).is_some() {
        return false;
    }
    is_text_alone(rules.params(attribute))
}

ghost use Rattle.std.specs.Prelude.{◌<◌, length, map};
ghost use Rattle.at_rules.specs.Bodies.{kind_view};

/// Whether these are one, a text.
fn is_text_alone(kinds: &[Kind]) -> bool
    ensures { IsTrue result → map kind_view kinds.now ≡ Text ∷ [] }
{
    match kinds {
        [kind] => is_text_kind(*kind),
        _ => false,
    }
}

/// Whether it is that of texts.
pub(crate) fn is_text_kind(kind: Kind) -> bool
    ensures { IsTrue result → kind_view kind ≡ Text }
{
    match kind {
        Kind::Text => true,
        _ => false,
    }
}

/// A key by which the attribute may test: of the token that the first class compares whose equation does.
fn guessed(rules: &Rules, above: ClassId, attribute: AttrId) -> Option<Key> {
    let mut key = None;
    for position in 0..rules.classes().len() {
        let class = ClassId::new(position);
        if let Some(token) = compared_by(rules, above, attribute, class) {
            key = with_class(key, class, token);
        }
    }
    key
}

/// The token that the equation of nodes of the class compares, where there are nodes of it and it does.
fn compared_by(rules: &Rules, above: ClassId, attribute: AttrId, class: ClassId) -> Option<usize> {
    if !rules.classes().fits(class, above) {
        return None;
    }
    compared(rules.own_body(class, attribute)?)
}

/// The key with the class in its set; of that token, where there is no key as yet. The set stays where it doesn't reach so far.
pub(crate) fn with_class(key: Option<Key>, class: ClassId, token: usize) -> Option<Key> {
    match key {
        Some(key) => Some(with_bit(key, class)),
        None => {
            let first = u8::try_from(class.index() / 4).ok()?;
            let token = u8::try_from(token).ok()?;
            let none = Key {
                first,
                token,
                classes: 0,
            };
            Some(with_bit(none, class))
        }
    }
}

/// The key with the class in its set, which stays where it doesn't reach so far.
fn with_bit(key: Key, class: ClassId) -> Key {
    let first = key.first as usize * 4;
    if class.index() < first || class.index() - first > 31 {
        return key;
    }
    Key {
        first: key.first,
        token: key.token,
        classes: key.classes | 1 << (class.index() - first) as u32,
    }
}

/// Whether the attribute tests by the key at all nodes that are of the class or below it.
fn all_test(rules: &Rules, above: ClassId, attribute: AttrId, key: &Key) -> bool
    ensures { IsTrue result → (c : ℕ) → fits rules.now.classes c above ≡ true → HasTest rules.now (key_view key.now) attribute c }
{
    for position in 0..rules.classes().len() {
        if !tests(rules, above, attribute, key, ClassId::new(position)) {
            return false;
        }
    }
    true
}

/// Whether it tests by the key at nodes of this class, where there are any.
fn tests(rules: &Rules, above: ClassId, attribute: AttrId, key: &Key, class: ClassId) -> bool
    ensures { IsTrue result → fits rules.now.classes class above ≡ true → HasTest rules.now (key_view key.now) attribute class }
{
    if !rules.classes().fits(class, above) {
        return true;
    }
    match rules.own_body(class, attribute) {
        Some(body) => is_test(rules.classes(), key, class, body),
        None => false,
    }
}

/// Whether the body tests by the key at nodes of the class.
fn is_test(classes: &ClassTable, key: &Key, class: ClassId, body: &Body) -> bool
    requires { class < length classes.now }
    ensures { IsTrue result → IsTestOf classes.now (key_view key.now) class (body_view body.now) }
{
    if !key.has(class) {
        return is_false(body);
    }
    let token = key.token as usize;
    if !is_text(classes, class, token) {
        return false;
    }
    match compared(body) {
        Some(part) => part == token,
        None => false,
    }
}

/// Whether it is `false`.
fn is_false(body: &Body) -> bool
    ensures { IsTrue result → body_view body.now ≡ TruthLiteral false }
{
    match body {
        Body::Truth(truth) => !*truth,
        _ => false,
    }
}

/// The token of `this` that the body compares with the argument, if it does.
fn compared(body: &Body) -> Option<usize>
    ensures { IfSome result (λ token. Compares token (body_view body.now)) }
{
    match body {
        Body::Equals(one, other) => compared_with(one, other),
        _ => None,
    }
}

/// The token of `this` that one of the two is, where the other one is the argument.
fn compared_with(one: &Body, other: &Body) -> Option<usize>
    ensures { IfSome result (λ token. Compares token (Equals (body_view one.now) (body_view other.now))) }
{
    if is_argument(one) {
        return own_token(other);
    }
    if is_argument(other) {
        return own_token(one);
    }
    None
}

/// Whether it is the first argument.
fn is_argument(body: &Body) -> bool
    ensures { IsTrue result → body_view body.now ≡ Name 0 }
{
    match body {
        Body::Name(name) => *name == 0,
        _ => false,
    }
}

/// The position of the token of `this` that it is, if it is one.
fn own_token(body: &Body) -> Option<usize>
    ensures { IfSome result (λ token. body_view body.now ≡ TokenOf This token) }
{
    match body {
        Body::TokenOf(node, part) => token_of_this(node, *part),
        _ => None,
    }
}

/// The position of the token, where the node is `this`.
fn token_of_this(node: &Body, part: usize) -> Option<usize>
    ensures { IfSome result (λ token. TokenOf (body_view node.now) part ≡ TokenOf This token) }
{
    match node {
        Body::This => Some(part),
        _ => None,
    }
}
