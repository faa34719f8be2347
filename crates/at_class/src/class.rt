//! Classes as they are declared.
ghost use Rattle.std.specs.Prelude.{◌≡◌, None, IfOk, map, unwrap_or, option_map};
ghost use Rattle.at_model.specs.Declarations.{component_by, class_by, shape_in, token_kind_named};
ghost use Rattle.at_model.specs.Classes.{Text};
ghost use Rattle.at_class.specs.View.{class_view, classes_view, part_view, shape_view, token_kind_view, named_in};
ghost use Rattle.at_class.specs.Grammar.{declaration_view, declarations_view, part_declaration_view, form_view};

use crate::names::{class_named, parent_named};
use crate::part::{ClassId, Part, PartShape, TokenKind};
use at_grammar::{ClassDecl, PartDecl, Shape};
use indexmap::IndexSet;
use std::alloc::{AllocError, Global};

/// A class as it is declared: its superclass, and the components that it adds to the inherited ones.
pub struct Class {
    pub name: String,
    pub is_abstract: bool,
    pub parent: Option<ClassId>,
    pub own: Vec<Part>,
}

/// One call, where each exit that lets it go would else have a case for each collection.
impl Drop for Class {
    fn drop(self) {
        let Class {
            name: _,
            is_abstract: _,
            parent: _,
            own: _,
        } = self;
    }
}

/// The kind of tokens that the word names.
pub fn token_kind_named(word: &str) -> Option<TokenKind>
    ensures { option_map token_kind_view result ≡ token_kind_named word.now }
{
    if word == "String" {
        Some(TokenKind::Str)
    } else if word == "int" {
        Some(TokenKind::Int)
    } else if word == "boolean" {
        Some(TokenKind::Bool)
    } else {
        None
    }
}

// What the word names in that form. A word that names nothing is refused elsewhere: here it stands for the first class, and for
// texts.
fn shape_named(names: &IndexSet<String>, shape: Shape, kind: &str) -> PartShape
    ensures { shape_view result ≡ shape_in (form_view shape) (unwrap_or (named_in names.now.keys kind.now) 0) (unwrap_or (token_kind_named kind.now) Text) }
{
    let class = class_named(names, kind).unwrap_or(ClassId::new(0));
    match shape {
        Shape::One => PartShape::One(class),
        Shape::Many => PartShape::Many(class),
        Shape::Maybe => PartShape::Maybe(class),
        Shape::Tok => PartShape::Tok(token_kind_named(kind).unwrap_or(TokenKind::Str)),
    }
}

fn part_declared(
    alloc: Global,
    names: &IndexSet<String>,
    part: &PartDecl,
) -> Result<Part, AllocError>
    ensures { IfOk result (λ p. part_view p ≡ component_by (named_in names.now.keys) (part_declaration_view part.now)) }
{
    let name = String::from_str(alloc, part.name.as_str())?;
    Ok(Part {
        name,
        shape: shape_named(names, part.shape, part.kind.as_str()),
        fixed: None,
    })
}

fn parts_declared(
    alloc: Global,
    names: &IndexSet<String>,
    declared: &[PartDecl],
) -> Result<Vec<Part>, AllocError>
    ensures { IfOk result (λ v. map part_view v.items ≡ map (component_by (named_in names.now.keys)) (map part_declaration_view declared.now)) }
{
    let mut parts = Vec::with_capacity(alloc, declared.len())?;
    for part in declared {
        parts.push(part_declared(alloc, names, part)?)?;
    }
    Ok(parts)
}

fn class_declared(
    alloc: Global,
    names: &IndexSet<String>,
    declaration: &ClassDecl,
) -> Result<Class, AllocError>
    ensures { IfOk result (λ k. class_view k ≡ class_by (named_in names.now.keys) (declaration_view declaration.now)) }
{
    let name = String::from_str(alloc, declaration.name.as_str())?;
    let own = parts_declared(alloc, names, &declaration.parts)?;
    Ok(Class {
        name,
        is_abstract: declaration.is_abstract,
        parent: parent_named(names, &declaration.parent),
        own,
    })
}

/// The classes that are declared, where these are their names.
pub fn classes_declared(
    alloc: Global,
    names: &IndexSet<String>,
    declarations: &[ClassDecl],
) -> Result<Vec<Class>, AllocError>
    ensures { IfOk result (λ v. classes_view v.items ≡ map (class_by (named_in names.now.keys)) (declarations_view declarations.now)) }
{
    let mut classes = Vec::with_capacity(alloc, declarations.len())?;
    for declaration in declarations {
        classes.push(class_declared(alloc, names, declaration)?)?;
    }
    Ok(classes)
}
