//! The rules of a grammar, in the order in which they are looked at.
ghost use Rattle.std.specs.Prelude.{◌≡◌, IfOk, IfErr, OnOk};
ghost use Rattle.at_model.specs.Classes.{AreSound};
ghost use Rattle.at_model.specs.Declarations.{classes_of};
ghost use Rattle.at_class.specs.View.{classes_view};
ghost use Rattle.at_class.specs.Grammar.{declarations_view};
ghost use Rattle.at_class.specs.Faults.{IsRefusedFor};
ghost use Rattle.at_class.specs.Rules.{AreKnown, AreNames, AreRegular};

use crate::checks::{
    component_twice, over_limit, superclass_circle, unknown_class, wrong_token_kind,
};
use crate::class::Class;
use crate::fault::{ClassCode, ClassFault, refuse};
use crate::found::found_of_all;
use crate::names::put_names;
use at_grammar::ClassDecl;
use at_text::place::Place;
use indexmap::IndexSet;
use std::alloc::Global;

/// The names of the classes in their order: there are some, each is declared once, and all that is named is declared.
pub fn known_names(
    alloc: Global,
    declarations: &[ClassDecl],
) -> Result<IndexSet<String>, ClassFault>
    ensures known { IfOk result (λ names. AreNames names.keys declarations.now × AreKnown (declarations_view declarations.now)) }
    ensures refused { IfErr result (IsRefusedFor (declarations_view declarations.now)) }
{
    if declarations.is_empty() {
        return Err(ClassFault::Refused {
            code: ClassCode::NoClass,
            at: Place::START,
        });
    }
    let mut names = IndexSet::new(alloc);
    put_names(alloc, &mut names, declarations)?;
    refuse(ClassCode::UnknownClass, unknown_class(&names, declarations))?;
    Ok(names)
}

/// Refuses the classes that are declared if they break one of the rules behind those on their names.
pub fn refuse_classes(
    alloc: Global,
    classes: &[Class],
    declarations: &[ClassDecl],
) -> Result<(), ClassFault>
    requires known { AreKnown (declarations_view declarations.now) }
    requires sound { AreSound (classes_of (declarations_view declarations.now)) }
    requires declared { classes_view classes.now ≡ classes_of (declarations_view declarations.now) }
    ensures regular { OnOk result (AreRegular (declarations_view declarations.now)) }
    ensures refused { IfErr result (IsRefusedFor (declarations_view declarations.now)) }
{
    refuse(
        ClassCode::SuperclassCircle,
        superclass_circle(alloc, classes, declarations)?,
    )?;
    refuse(ClassCode::TokenKind, wrong_token_kind(declarations))?;
    let found = found_of_all(alloc, classes)?;
    refuse(
        ClassCode::ComponentTwice,
        component_twice(&found, declarations),
    )?;
    refuse(ClassCode::Limit, over_limit(&found, declarations))
}
