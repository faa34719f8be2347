//! The components of classes.

ghost use Rattle.std.specs.Prelude.{◌≡◌, ◌<◌, Some, length, map, option_map, option_and_then, slice_get, IfSome, IsTrue};
ghost use Rattle.at_model.specs.Classes.{Many, Token, Text};
ghost use Rattle.at_model.specs.Kinds.{shape_of_part, single_class};
ghost use Rattle.at_class.specs.View.{part_view, shape_view};

use at_class::{ClassId, ClassTable, Part, PartShape, TokenKind};

/// The shape of the component; none where the class has none there.
fn shape_of(classes: &ClassTable, class: ClassId, part: usize) -> Option<PartShape>
    requires { class < length classes.now }
    ensures { option_map shape_view result ≡ shape_of_part classes.now class part }
{
    shape_in(classes.parts(class), part)
}

/// The shape of one of the components.
fn shape_in(parts: &[Part], part: usize) -> Option<PartShape>
    ensures { option_map shape_view result ≡ option_map (λ p. p.shape) (slice_get (map part_view parts.now) part) }
{
    parts.get(part).map(|part| part.shape)
}

/// Whether the component is a token that is a text.
pub(crate) fn is_text(classes: &ClassTable, class: ClassId, part: usize) -> bool
    requires { class < length classes.now }
    ensures { IsTrue result → shape_of_part classes.now class part ≡ Some (Token Text) }
{
    match shape_of(classes, class, part) {
        Some(shape) => is_text_shape(shape),
        None => false,
    }
}

/// Whether it is that of a token that is a text.
fn is_text_shape(shape: PartShape) -> bool
    ensures { IsTrue result → shape_view shape ≡ Token Text }
{
    match shape {
        PartShape::Tok(TokenKind::Str) => true,
        _ => false,
    }
}

/// The class of the elements, where the component is a list.
pub(crate) fn element_of(classes: &ClassTable, class: ClassId, part: usize) -> Option<ClassId>
    ensures { IfSome result (λ element. shape_of_part classes.now class part ≡ Some (Many element)) }
{
    if class.index() >= classes.len() {
        return None;
    }
    match shape_of(classes, class, part)? {
        PartShape::Many(element) => Some(element),
        _ => None,
    }
}

/// The class of the child, where the component holds one tree or at most one.
pub(crate) fn child_of(classes: &ClassTable, class: ClassId, part: usize) -> Option<ClassId>
    ensures { IfSome result (λ child. option_and_then single_class (shape_of_part classes.now class part) ≡ Some child) }
{
    if class.index() >= classes.len() {
        return None;
    }
    match shape_of(classes, class, part)? {
        PartShape::One(child) => Some(child),
        PartShape::Maybe(child) => Some(child),
        _ => None,
    }
}
