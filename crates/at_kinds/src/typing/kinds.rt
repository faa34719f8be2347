//! The kinds of expressions.

ghost use Rattle.std.specs.Prelude.{◌≡◌, Option, option_and_then};
ghost use Rattle.at_rules.specs.Bodies.{body_view};
ghost use Rattle.at_kinds.specs.Kinds.{known, of_written, is_int as is_int_kind, is_truth as is_truth_kind, is_text as is_text_kind, is_node as is_node_kind, is_within, is_of_word, common_word, fits as fits_kind, fits_known, only_if, upper as upper_of, wider_class as wider_class_of, wider_strange as wider_strange_of, wider as wider_of};
ghost use Rattle.at_kinds.specs.Typed.{typed_view};

use crate::signatures::WrittenKind;
use at_class::{ClassId, ClassTable};
use at_rules::{AttrId, Body, Kind};
use at_text::place::Place;

/// The kind of an expression.
#[derive(Clone, Copy, PartialEq, Eq)]
pub enum ExprKind {
    Int,
    Bool,
    Text,
    /// Null, or a node of the class or below.
    Class(ClassId),
    /// Null, or nodes of a class that isn't there: of that of the word with which the values of this attribute are declared.
    Strange(Option<AttrId>),
    /// Null alone.
    Null,
}

impl ExprKind {
    /// The kind of a value that is declared so.
    pub fn written(kind: WrittenKind) -> ExprKind
        ensures { result ≡ of_written kind }
    {
        match kind {
            WrittenKind::Known(kind) => ExprKind::known(kind),
            WrittenKind::Strange(first) => ExprKind::Strange(first),
        }
    }

    /// The kind of a value of that kind.
    pub fn known(kind: Kind) -> ExprKind
        ensures { result ≡ known kind }
    {
        match kind {
            Kind::Int => ExprKind::Int,
            Kind::Bool => ExprKind::Bool,
            Kind::Text => ExprKind::Text,
            Kind::Class(class) => ExprKind::Class(class),
        }
    }

    pub fn is_int(&self) -> bool
        ensures { result ≡ is_int_kind self.now }
    {
        matches!(self, ExprKind::Int)
    }

    pub fn is_truth(&self) -> bool
        ensures { result ≡ is_truth_kind self.now }
    {
        matches!(self, ExprKind::Bool)
    }

    pub fn is_text(&self) -> bool
        ensures { result ≡ is_text_kind self.now }
    {
        matches!(self, ExprKind::Text)
    }

    /// Whether its values are nodes and null.
    pub fn is_node(&self) -> bool
        ensures { result ≡ is_node_kind self.now }
    {
        match self {
            ExprKind::Class(_) | ExprKind::Strange(_) | ExprKind::Null => true,
            ExprKind::Int | ExprKind::Bool | ExprKind::Text => false,
        }
    }

    /// Whether each of its values is one of the wanted kind: a class has null, and the nodes of each class below.
    pub fn fits(self, classes: &ClassTable, wanted: WrittenKind) -> bool
        ensures { result ≡ fits_kind classes.now self wanted }
    {
        match wanted {
            WrittenKind::Known(kind) => self.fits_known(classes, kind),
            WrittenKind::Strange(first) => self.is_of_word(first),
        }
    }

    fn fits_known(self, classes: &ClassTable, wanted: Kind) -> bool
        ensures { result ≡ fits_known classes.now self wanted }
    {
        match wanted {
            Kind::Int => self.is_int(),
            Kind::Bool => self.is_truth(),
            Kind::Text => self.is_text(),
            Kind::Class(above) => self.is_within(classes, above),
        }
    }

    /// Whether it is null's kind, or the class's or that of one below.
    fn is_within(self, classes: &ClassTable, above: ClassId) -> bool
        ensures { result ≡ is_within classes.now above self }
    {
        match self {
            ExprKind::Class(class) => classes.is_sub(class, above),
            ExprKind::Null => true,
            _ => false,
        }
    }

    /// Whether it is null's kind, or that of the same class that isn't there.
    fn is_of_word(self, first: Option<AttrId>) -> bool
        ensures { result ≡ is_of_word first self }
    {
        match self {
            ExprKind::Strange(second) => common_word(first, second).is_some(),
            ExprKind::Null => true,
            _ => false,
        }
    }

    /// The wider of two kinds that are equal, or of which one has all values of the other.
    pub fn wider(self, classes: &ClassTable, other: ExprKind) -> Option<ExprKind>
        ensures { result ≡ wider_of classes.now self other }
    {
        match self {
            ExprKind::Int => only_if(other.is_int(), other),
            ExprKind::Bool => only_if(other.is_truth(), other),
            ExprKind::Text => only_if(other.is_text(), other),
            ExprKind::Class(class) => wider_class(classes, class, other),
            ExprKind::Strange(first) => wider_strange(first, other),
            ExprKind::Null => only_if(other.is_node(), other),
        }
    }
}

/// The kind, where the condition holds.
fn only_if(condition: bool, kind: ExprKind) -> Option<ExprKind>
    ensures { result ≡ only_if condition kind }
{
    if condition { Some(kind) } else { None }
}

/// The class's kind or the other one, whichever has all values of the other.
fn wider_class(classes: &ClassTable, class: ClassId, other: ExprKind) -> Option<ExprKind>
    ensures { result ≡ wider_class_of classes.now class other }
{
    match other {
        ExprKind::Null => Some(ExprKind::Class(class)),
        ExprKind::Class(second) => upper(classes, class, second),
        _ => None,
    }
}

/// The kind of a class that isn't there, where the other one is the same or null's.
fn wider_strange(first: Option<AttrId>, other: ExprKind) -> Option<ExprKind>
    ensures { result ≡ wider_strange_of first other }
{
    match other {
        ExprKind::Null => Some(ExprKind::Strange(first)),
        ExprKind::Strange(second) => Some(ExprKind::Strange(Some(common_word(first, second)?))),
        _ => None,
    }
}

/// The first attribute with values of the word, where the two are of one word.
fn common_word(first: Option<AttrId>, second: Option<AttrId>) -> Option<AttrId>
    ensures { result ≡ common_word first second }
{
    let first = first?;
    let second = second?;
    if first.index() == second.index() {
        Some(first)
    } else {
        None
    }
}

/// Of two classes the one that is the other or above it.
fn upper(classes: &ClassTable, class: ClassId, second: ClassId) -> Option<ExprKind>
    ensures { result ≡ upper_of classes.now class second }
{
    if classes.is_sub(second, class) {
        Some(ExprKind::Class(class))
    } else if classes.is_sub(class, second) {
        Some(ExprKind::Class(second))
    } else {
        None
    }
}

/// An expression with its place: its kind, and the body that it means.
#[derive(Drop)]
pub struct Typed {
    pub at: Place,
    pub kind: ExprKind,
    pub body: Box<Body>,
}

impl Typed {
    /// The same, at another place.
    pub fn placed(self, at: Place) -> Typed
        ensures { typed_view result ≡ record { at = at; kind = self.kind; body = body_view self.body.value } }
    {
        Typed {
            at,
            kind: self.kind,
            body: self.body,
        }
    }
}
