//! Accessors: what of a component the accessor of a name gets.

ghost use Rattle.std.specs.Prelude.{◌≡◌, ◌++◌, ◌&&◌, ℕ, List, false, map, position, string_bytes, option_map, MatchOption};
ghost use Rattle.std.specs.Str.{bytes_eq};
ghost use Rattle.at_class.specs.View.{part_view, shape_view, token_kind_view};
ghost use Rattle.at_kinds.specs.Accessors.{accessor_named, accessed, listed, is_got, is_had, is_counted, is_listed, is_list, is_optional, shape_of, getter, got_in, named_besides, token_kind, element_class};

use crate::components::parts_of;
use at_class::{ClassId, ClassTable, Part, PartShape, TokenKind};
use at_rules::Kind;

/// An accessor of a node, with the position of the component that it is of.
#[derive(Clone, Copy, PartialEq, Eq)]
pub enum Accessor {
    /// `getB` of a plain child or an optional, with the class of the child.
    Child(usize, ClassId),
    /// `getB` of a list, which takes an index, with the class of the elements.
    Element(usize, ClassId),
    /// `getB` of a token, with its kind.
    Token(usize, Kind),
    /// `hasB` of an optional.
    Has(usize),
    /// `getNumB` of a list.
    Count(usize),
    /// `getBList` of a list.
    List(usize),
}

/// The accessor of that name that nodes of the class have. Where the name is both the number of one list
/// and the list of another, it is the number.
pub fn accessor_named(classes: &ClassTable, class: ClassId, name: &str) -> Option<Accessor>
    ensures { result ≡ accessor_named classes.now class name.now }
{
    let parts = parts_of(classes, class);
    match position_got(parts, name) {
        Some(part) => got(parts, part),
        None => named_besides(parts, name),
    }
}

/// What the accessor gets that is named after the component alone.
fn got(parts: &[Part], part: usize) -> Option<Accessor>
    ensures { result ≡ got_in (map part_view parts.now) part }
{
    Some(getter(part, shape_of(parts, part)?))
}

/// The shape of the component.
fn shape_of(parts: &[Part], part: usize) -> Option<PartShape>
    ensures { option_map shape_view result ≡ shape_of (map part_view parts.now) part }
{
    parts.get(part).map(|part| part.shape)
}

/// The accessor of that name that is named after an optional or a list, and not alone.
fn named_besides(parts: &[Part], name: &str) -> Option<Accessor>
    ensures { result ≡ named_besides (map part_view parts.now) name.now }
{
    if let Some(part) = position_had(parts, name) {
        return Some(Accessor::Has(part));
    }
    if let Some(part) = position_counted(parts, name) {
        return Some(Accessor::Count(part));
    }
    let part = position_listed(parts, name)?;
    Some(Accessor::List(part))
}

/// What `get` and the name of a component of that shape gets.
fn getter(part: usize, shape: PartShape) -> Accessor
    ensures { result ≡ getter part (shape_view shape) }
{
    match shape {
        PartShape::One(class) | PartShape::Maybe(class) => Accessor::Child(part, class),
        PartShape::Many(class) => Accessor::Element(part, class),
        PartShape::Tok(kind) => Accessor::Token(part, token_kind(kind)),
    }
}

fn token_kind(kind: TokenKind) -> Kind
    ensures { result ≡ token_kind (token_kind_view kind) }
{
    match kind {
        TokenKind::Int => Kind::Int,
        TokenKind::Bool => Kind::Bool,
        TokenKind::Str => Kind::Text,
    }
}

/// The component of the class that has the accessor of that name: `get` and the component's name.
pub fn accessed(classes: &ClassTable, class: ClassId, name: &str) -> Option<usize>
    ensures { result ≡ accessed classes.now class name.now }
{
    position_got(parts_of(classes, class), name)
}

/// The list of the class whose list accessor has that name, `get`, the list's name and `List`, and the
/// class of its elements.
pub fn listed(classes: &ClassTable, class: ClassId, name: &str) -> Option<(usize, ClassId)>
    ensures { result ≡ listed classes.now class name.now }
{
    let parts = parts_of(classes, class);
    let part = position_listed(parts, name)?;
    let shape = shape_of(parts, part)?;
    let element = element_class(shape)?;
    Some((part, element))
}

/// The class of a list's elements.
fn element_class(shape: PartShape) -> Option<ClassId>
    ensures { result ≡ element_class (shape_view shape) }
{
    match shape {
        PartShape::Many(element) => Some(element),
        _ => None,
    }
}

/// The component with the accessor of that name, `get` and the component's name.
fn position_got(parts: &[Part], name: &str) -> Option<usize>
    ensures { result ≡ position (is_got name.now) (map part_view parts.now) }
{
    let component = behind(name.as_bytes(), b"get")?;
    position_named(parts, component)
}

/// The optional with the accessor of that name, `has` and the component's name.
fn position_had(parts: &[Part], name: &str) -> Option<usize>
    ensures { result ≡ position (is_had name.now) (map part_view parts.now) }
{
    let component = behind(name.as_bytes(), b"has")?;
    position_optional(parts, component)
}

/// The list with the accessor of that name, `getNum` and the component's name.
fn position_counted(parts: &[Part], name: &str) -> Option<usize>
    ensures { result ≡ position (is_counted name.now) (map part_view parts.now) }
{
    let component = behind(name.as_bytes(), b"getNum")?;
    position_list(parts, component)
}

/// The list with the accessor of that name, `get`, the component's name and `List`.
fn position_listed(parts: &[Part], name: &str) -> Option<usize>
    ensures { result ≡ position (is_listed name.now) (map part_view parts.now) }
{
    let rest = behind(name.as_bytes(), b"get")?;
    let component = without_end(rest, b"List")?;
    position_list(parts, component)
}

/// The component of that name.
fn position_named(parts: &[Part], name: &[u8]) -> Option<usize>
    ensures { result ≡ position (λ p. bytes_eq name.now (string_bytes p.name)) parts.now }
{
    parts.iter().position(|part| name == part.name.as_bytes())
}

/// The optional of that name.
fn position_optional(parts: &[Part], name: &[u8]) -> Option<usize>
    ensures { result ≡ position (λ p. is_optional (shape_view p.shape) && bytes_eq name.now (string_bytes p.name)) parts.now }
{
    parts.iter().position(|part| is_optional(part.shape) && name == part.name.as_bytes())
}

/// The list of that name.
fn position_list(parts: &[Part], name: &[u8]) -> Option<usize>
    ensures { result ≡ position (λ p. is_list (shape_view p.shape) && bytes_eq name.now (string_bytes p.name)) parts.now }
{
    parts
        .iter()
        .position(|part| is_list(part.shape) && name == part.name.as_bytes())
}

fn is_optional(shape: PartShape) -> bool
    ensures { result ≡ is_optional (shape_view shape) }
{
    matches!(shape, PartShape::Maybe(_))
}

fn is_list(shape: PartShape) -> bool
    ensures { result ≡ is_list (shape_view shape) }
{
    matches!(shape, PartShape::Many(_))
}

/// What stands in a name behind that front, if it begins so.
fn behind<'a>(name: &'a [u8], front: &[u8]) -> Option<&'a [u8]>
    ensures { MatchOption result ((x : List ℕ) → bytes_eq name.now (front.now ++ x) ≡ false) (λ rest. (x : List ℕ)
        → bytes_eq name.now (front.now ++ x) ≡ bytes_eq rest.now x) }
{
    if name.len() < front.len() {
        return None;
    }
    let (head, rest) = name.split_at(front.len());
    if head == front { Some(rest) } else { None }
}

/// What stands in a name before that end, if it ends so.
fn without_end<'a>(name: &'a [u8], end: &[u8]) -> Option<&'a [u8]>
    ensures { MatchOption result ((x : List ℕ) → bytes_eq name.now (x ++ end.now) ≡ false) (λ rest. (x : List ℕ)
        → bytes_eq name.now (x ++ end.now) ≡ bytes_eq rest.now x) }
{
    if name.len() < end.len() {
        return None;
    }
    let (rest, tail) = name.split_at(name.len() - end.len());
    if tail == end { Some(rest) } else { None }
}
