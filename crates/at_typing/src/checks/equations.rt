//! Equations of attributes that aren't declared, and equations that are written twice.

ghost use Rattle.std.specs.Prelude.{◌≡◌, ◌&&◌, ◌++◌, ◌∷◌, [], true, not, map, All, IfOk};
ghost use Rattle.std.specs.List.{list_any};
ghost use Rattle.at_jrag.specs.View.{decl_form_view};
ghost use Rattle.at_typing.specs.AttributeKeys.{AreAttributes, TellsAttribute};
ghost use Rattle.at_typing.specs.Declaring.{equation_twice, is_own_equation, without_attribute};
ghost use Rattle.at_typing.specs.EquationKeys.{getter_of, inherited_keys, is_own, is_own_key, is_there, key_view, own_keys};
ghost use Rattle.at_typing.specs.Numbering.{numbered_view, AreAlike, AreNumbered};

use super::fault_at;
use crate::attributes::Attributes;
use crate::fault::Breach;
use crate::located::getter_in;
use crate::numbered::{NamedClass, Numbered};
use at_class::ClassTable;
use at_jrag::{DeclForm, Ending};
use at_kinds::RuleCode;
use indexmap::IndexSet;
use std::alloc::{AllocError, Global};

/// The first equation whose attribute isn't declared: of a class that has no such synthesized attribute, or
/// for a name that is inherited nowhere.
pub fn without_attribute(
    classes: &ClassTable,
    attributes: &Attributes,
    declared: &[Numbered],
) -> Option<Breach>
    requires { AreNumbered classes.now declared.now × AreAttributes declared.now attributes.now }
    ensures { result ≡ without_attribute classes.now (map numbered_view declared.now) }
{
    for numbered in declared {
        if !is_of_attribute(classes, attributes, numbered) {
            return Some(fault_at(
                RuleCode::EquationWithoutAttribute,
                numbered,
                numbered.decl.at,
            ));
        }
    }
    None
}

/// Whether the declaration is no equation, or one of an attribute that is declared.
fn is_of_attribute(classes: &ClassTable, attributes: &Attributes, numbered: &Numbered) -> bool
    ensures { TellsAttribute attributes.now classes.now numbered.now result }
{
    match numbered.decl.form {
        DeclForm::Equation { .. } => attributes
            .synthesized(classes, numbered.class, numbered.name)
            .is_some(),
        DeclForm::InheritedEquation { .. } => attributes.inherited(numbered.name).is_some(),
        DeclForm::Synthesized { .. } | DeclForm::Inherited { .. } => true,
    }
}

/// The first equation that its class has already: for the attribute, or for the component and the attribute.
pub fn equation_twice(alloc: Global, declared: &[Numbered]) -> Result<Option<Breach>, AllocError>
    requires { All (λ d. All (AreAlike d) declared.now) declared.now }
    ensures { IfOk result (λ fault. fault ≡ equation_twice (map numbered_view declared.now)) }
{
    let mut before = Before::new(alloc);
    for numbered in declared {
        if !before.add(numbered)? {
            return Ok(Some(fault_at(RuleCode::EquationTwice, numbered, numbered.decl.at)));
        }
    }
    Ok(None)
}

/// The equations before a declaration.
struct Before<'a> {
    // Each class with each name that it has an equation for, for its own nodes.
    own: IndexSet<(NamedClass, usize)>,
    // Each class with each getter and name that it has an equation for, for the nodes below.
    inherited: IndexSet<(NamedClass, &'a str, usize)>,
}

/// One call, where each exit that lets them go would else have a case for each collection.
impl Drop for Before<'_> {
    fn drop(self) {
        let Before {
            own: _,
            inherited: _,
        } = self;
    }
}

impl<'a> Before<'a> {
    ghost use Rattle.std.specs.Prelude.{◌≡◌, [], true, not, IfOk};
    ghost use Rattle.at_typing.specs.EquationKeys.{has_equation, AddsEquation};

    fn new(alloc: Global) -> Before<'a>
        ensures own { result.own.keys ≡ [] }
        ensures inherited { result.inherited.keys ≡ [] }
    {
        Before {
            own: IndexSet::new(alloc),
            inherited: IndexSet::new(alloc),
        }
    }

    /// Adds the declaration's equation, if it has one; `false` where it is there already.
    fn add(&mut self, numbered: &Numbered<'a>) -> Result<bool, AllocError>
        ensures new { IfOk result (λ is_new. is_new ≡ not (has_equation self.old numbered.now)) }
        ensures added { IfOk result (λ is_new. is_new ≡ true → AddsEquation numbered.now self.old self.new) }
    {
        if !add_own(&mut self.own, numbered)? {
            return Ok(false);
        }
        add_inherited(&mut self.inherited, numbered)
    }
}

/// Adds the declaration's equation for the class's own nodes, if it has one; `false` where it is there already.
fn add_own(own: &mut IndexSet<(NamedClass, usize)>, numbered: &Numbered) -> Result<bool, AllocError>
    ensures new { IfOk result (λ is_new. is_new ≡ not (is_own numbered.now && list_any (is_own_key numbered.now) own.old.keys)) }
    ensures added { IfOk result (λ is_new. is_new ≡ true → own.new.keys ≡ own.old.keys ++ own_keys (numbered.now ∷ [])) }
{
    if !is_own_equation(&numbered.decl.form) {
        return Ok(true);
    }
    let (_, is_new) = own.insert_full((numbered.class, numbered.name))?;
    Ok(is_new)
}

/// Adds the declaration's inherited equation, if it is one; `false` where it is there already.
fn add_inherited<'a>(
    inherited: &mut IndexSet<(NamedClass, &'a str, usize)>,
    numbered: &Numbered<'a>,
) -> Result<bool, AllocError>
    ensures new { IfOk result (λ is_new. is_new ≡ not (is_there (map key_view inherited.old.keys) numbered.now (getter_of numbered.now))) }
    ensures added { IfOk result (λ is_new. is_new ≡ true
        → map key_view inherited.new.keys ≡ map key_view inherited.old.keys ++ inherited_keys (numbered.now ∷ [])) }
{
    let Some(getter) = getter_in(&numbered.decl.form) else {
        return Ok(true);
    };
    let key = (numbered.class, getter.text.as_str(), numbered.name);
    let (_, is_new) = inherited.insert_full(key)?;
    Ok(is_new)
}

/// Whether the declaration has an equation for the class's own nodes.
fn is_own_equation(form: &DeclForm) -> bool
    ensures { result ≡ is_own_equation (decl_form_view form.now) }
{
    match form {
        DeclForm::Equation { .. } => true,
        DeclForm::Synthesized { ending, .. } => matches!(ending, Ending::Body(_)),
        DeclForm::Inherited { .. } | DeclForm::InheritedEquation { .. } => false,
    }
}
