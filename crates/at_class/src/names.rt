//! Names of classes: each is declared once, and what names a class names one that is declared.
ghost use Rattle.std.specs.Prelude.{◌≡◌, [], None, IfErr, OnOk, string_bytes, option_and_then, option_map};
ghost use Rattle.std.specs.List.{list_all};
ghost use Rattle.at_model.specs.Declarations.{class_twice, is_predefined, is_known, is_parent_known, is_part_known, is_token};
ghost use Rattle.at_class.specs.View.{named_in};
ghost use Rattle.at_class.specs.Grammar.{declaration_view, declarations_view, part_declaration_view, form_view};
ghost use Rattle.at_class.specs.Faults.{IsAt};
ghost use Rattle.at_class.specs.Rules.{AreNames};

use crate::fault::{ClassCode, ClassFault};
use crate::part::ClassId;
use at_grammar::{ClassDecl, PartDecl, Shape};
use indexmap::IndexSet;
use std::alloc::Global;

/// Whether every tree's classes have the name already.
fn is_predefined(name: &str) -> bool
    ensures { result ≡ is_predefined name.now }
{
    name == "ASTNode" || name == "List" || name == "Opt"
}

/// Puts the names of the classes into the set, which is empty, in their order. Or the first name that stands twice is refused.
pub fn put_names(
    alloc: Global,
    names: &mut IndexSet<String>,
    declarations: &[ClassDecl],
) -> Result<(), ClassFault>
    requires { names.now.keys ≡ [] }
    ensures ok { OnOk result ((class_twice (declarations_view declarations.now) ≡ None) × AreNames names.new.keys declarations.now) }
    ensures err { IfErr result (IsAt ClassCode.ClassTwice (class_twice (declarations_view declarations.now))) }
{
    for declaration in declarations {
        let name = String::from_str(alloc, declaration.name.as_str())?;
        let (_, is_new) = names.insert_full(name)?;
        if !is_new || is_predefined(declaration.name.as_str()) {
            return Err(ClassFault::Refused {
                code: ClassCode::ClassTwice,
                at: declaration.at,
            });
        }
    }
    Ok(())
}

/// The class of that name.
pub fn class_named(names: &IndexSet<String>, name: &str) -> Option<ClassId>
    ensures { result ≡ named_in names.now.keys name.now }
{
    Some(ClassId::new(names.get_index_of(name)?))
}

/// The superclass that is named, if one is.
pub fn parent_named(names: &IndexSet<String>, parent: &Option<String>) -> Option<ClassId>
    ensures { result ≡ option_and_then (named_in names.now.keys) (option_map string_bytes parent.now) }
{
    class_named(names, parent.as_ref()?.as_str())
}

/// Whether the superclass, and the class of each component, is declared.
pub fn is_known(names: &IndexSet<String>, declaration: &ClassDecl) -> bool
    ensures { result ≡ is_known (named_in names.now.keys) (declaration_view declaration.now) }
{
    is_parent_known(names, &declaration.parent) && are_parts_known(names, &declaration.parts)
}

fn is_parent_known(names: &IndexSet<String>, parent: &Option<String>) -> bool
    ensures { result ≡ is_parent_known (named_in names.now.keys) (option_map string_bytes parent.now) }
{
    match parent {
        None => true,
        Some(name) => class_named(names, name.as_str()).is_some(),
    }
}

fn are_parts_known(names: &IndexSet<String>, parts: &[PartDecl]) -> bool
    ensures { result ≡ list_all (λ p. is_part_known (named_in names.now.keys) (part_declaration_view p)) parts.now }
{
    parts.iter().all(|part| is_part_known(names, part))
}

fn is_part_known(names: &IndexSet<String>, part: &PartDecl) -> bool
    ensures { result ≡ is_part_known (named_in names.now.keys) (part_declaration_view part.now) }
{
    is_token(part.shape) || class_named(names, part.kind.as_str()).is_some()
}

/// Whether the component is a token.
pub fn is_token(shape: Shape) -> bool
    ensures { result ≡ is_token (form_view shape) }
{
    matches!(shape, Shape::Tok)
}
