//! Rules of declarations.

ghost use Rattle.std.specs.Prelude.{◌≡◌, List, None, map, IfOk};
ghost use Rattle.std.specs.List.{AllByRecursion};
ghost use Rattle.at_model.specs.Rules.{AreComplete};
ghost use Rattle.at_model.specs.WellFormed.{AreWellFormed, IsHierarchy};
ghost use Rattle.at_rules.specs.Circular.{AreCircularLazy, HasNoneCircular};
ghost use Rattle.at_typing.specs.AttributeKeys.{AreAttributes};
ghost use Rattle.at_typing.specs.Building.{first_fault, meanings, refused, Builds, IsLack};
ghost use Rattle.at_typing.specs.Completing.{fault_of};
ghost use Rattle.at_typing.specs.Declaring.{fault_together, IsNotCircular};
ghost use Rattle.at_typing.specs.Located.{declarations_in, AreSpelled};
ghost use Rattle.at_typing.specs.Meanings.{meant as meant_by_itself};
ghost use Rattle.at_typing.specs.Numbering.{numbered_view, AreNumbered};
ghost use Rattle.at_typing.specs.Seen.{refusal_of, AddsOrTells, IsAbout, Means, Stands, Tells};
ghost use Rattle.at_typing.specs.Single.{AreSingle};
ghost use Rattle.at_typing.specs.declared.numbered.Numbered.{Numbered as NumberedValue};

use crate::attributes::Attributes;
use crate::checks::{fault_of, fault_together};
use crate::fault::{Breach, RuleFault};
use crate::meaning::Among;
use crate::numbered::{Declarations, Numbered};
use crate::written::signatures_of;
use at_class::ClassTable;
use at_complete::{class_without_equation, inherited_without_equation};
use at_jrag::Aspect;
use at_kinds::typing::TypeFault;
use at_kinds::{Arguments, RuleCode};
use at_rules::{AttrId, Equations, Rules};
use at_text::fault::{Failure, Fault};
use std::alloc::Global;

/// The rules of the declarations of the aspect files over the classes, where such arguments may be passed.
///
/// # Errors
///
/// The first of these codes that applies, each at its earliest place: too many attributes or
/// too long a text, an attribute with an accessor's name, one declared twice, an equation without attribute,
/// an equation twice; then in the order of the declarations unknown names, wrong arguments and wrong kinds; a
/// class without equation for a synthesized attribute, and for an inherited one. `Memory` for want of memory.
pub fn build(
    alloc: Global,
    classes: ClassTable,
    arguments: Arguments,
    files: &[Vec<Aspect>],
) -> Result<Rules, RuleFault>
    ensures built { Builds arguments classes (declarations_in files.now) result }
    ensures complete { IfOk result AreComplete }
    ensures well_formed { IsHierarchy classes → AreSpelled files.now → IfOk result AreWellFormed }
    ensures single { IfOk result AreSingle }
    ensures circular_lazy { IfOk result AreCircularLazy }
    ensures none_circular { AllByRecursion IsNotCircular (declarations_in files.now) → IfOk result HasNoneCircular }
    ensures classes { IfOk result (λ r. r.classes ≡ classes) }
{
    let declared = Declarations::of(alloc, &classes, files)?;
    let meant = meant_together(alloc, &classes, arguments, &declared.items)?;
    complete_rules(alloc, classes, arguments, declared, meant)
}

/// The rules of declarations that mean that, unless a class lacks an equation.
fn complete_rules(
    alloc: Global,
    classes: ClassTable,
    arguments: Arguments,
    declared: Declarations,
    meant: Equations,
) -> Result<Rules, RuleFault>
    requires { (first_fault arguments classes (map numbered_view declared.items.items) ≡ None)
        × Stands declared.names.keys (meanings arguments classes (map numbered_view declared.items.items) (map numbered_view declared.items.items)) meant }
    ensures built { Builds arguments classes (map numbered_view declared.entry.items.items) result }
    ensures complete { IfOk result AreComplete }
    ensures classes { IfOk result (λ r. r.classes ≡ classes) }
{
    let Declarations { items, names } = declared;
    let rules = Rules::new(alloc, classes, names, meant);
    refuse_incomplete(alloc, &rules, &items)?;
    Ok(rules)
}

/// What the declarations mean. Faults of several declarations together come before those of one by itself.
fn meant_together(
    alloc: Global,
    classes: &ClassTable,
    arguments: Arguments,
    declared: &[Numbered],
) -> Result<Equations, RuleFault>
    requires { AreNumbered classes.now declared.now }
    ensures { Means arguments classes.now declared.now (first_fault arguments classes.now (map numbered_view declared.now)) result }
{
    let attributes = Attributes::of(alloc, declared)?;
    let fault = fault_together(alloc, classes, arguments, &attributes, declared)?;
    match fault {
        Some(fault) => Err(Failure::For(fault)),
        None => meant_by(alloc, classes, arguments, &attributes, declared),
    }
}

/// Refuses rules with a class that lacks an equation, for a synthesized attribute before an inherited one.
fn refuse_incomplete(alloc: Global, rules: &Rules, declared: &[Numbered]) -> Result<(), RuleFault>
    ensures { Tells (IsLack rules.now (map numbered_view declared.now)) result }
{
    let own = class_without_equation(alloc, rules)?;
    refuse(RuleCode::ClassWithoutEquation, declared, own)?;
    let inherited = inherited_without_equation(alloc, rules)?;
    refuse(RuleCode::InheritedWithoutEquation, declared, inherited)
}

/// Refuses the declaration of the attribute, if there is one.
fn refuse(code: RuleCode, declared: &[Numbered], attribute: Option<AttrId>) -> Result<(), RuleFault>
    ensures { Tells (λ f. f ≡ fault_of code (map numbered_view declared.now) attribute) result }
{
    match fault_of(code, declared, attribute) {
        Some(fault) => Err(Failure::For(fault)),
        None => Ok(()),
    }
}

/// What the declarations mean, each by itself.
fn meant_by(
    alloc: Global,
    classes: &ClassTable,
    arguments: Arguments,
    attributes: &Attributes,
    declared: &[Numbered],
) -> Result<Equations, RuleFault>
    requires { AreNumbered classes.now declared.now × AreAttributes declared.now attributes.now
        × (fault_together arguments classes.now (map numbered_view declared.now) ≡ None) }
    ensures { Means arguments classes.now declared.now (refused arguments classes.now (map numbered_view declared.now)) result }
{
    let signatures = signatures_of(alloc, classes, declared)?;
    let among = Among {
        alloc,
        classes,
        arguments,
        attributes,
        signatures: &signatures,
    };
    let mut meant = Equations::new(alloc);
    for numbered in declared {
        add(&among, numbered, &mut meant)?;
    }
    Ok(meant)
}

/// Adds what the declaration means.
fn add(among: &Among, numbered: &Numbered, meant: &mut Equations) -> Result<(), RuleFault>
    ensures { (ds : List NumberedValue) → IsAbout ds among.now numbered.now
        → AddsOrTells (numbered_view numbered.now) numbered.now.name
        (meant_by_itself among.now.arguments among.now.classes.now (map numbered_view ds) (numbered_view numbered.now)) meant.old meant.new result }
{
    match among.add(numbered, meant) {
        Ok(()) => Ok(()),
        Err(fault) => Err(refusal(numbered, fault)),
    }
}

/// The declaration's fault, with its file.
fn refusal(numbered: &Numbered, fault: TypeFault) -> RuleFault
    ensures { result ≡ refusal_of (numbered_view numbered.now) fault }
{
    match fault {
        Fault::Refused { code, at } => Failure::For(Breach {
            code,
            file: numbered.file,
            at,
        }),
        Fault::Memory => Failure::Memory,
    }
}
