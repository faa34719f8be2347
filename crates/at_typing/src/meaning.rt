//! What each declaration means by itself: the attribute and the equation that it adds, or its first fault.

ghost use Rattle.std.specs.Prelude.{◌≡◌, List, Some, map, option_map, option_and_then, IfOk};
ghost use Rattle.at_class.specs.View.{shape_view};
ghost use Rattle.at_jrag.specs.View.{body_view as written_body, decl_form_view, kind_word_view, param_view, params_view, word_view};
ghost use Rattle.at_model.specs.Classes.{parts};
ghost use Rattle.at_rules.specs.Bodies.{body_view, is_numeric};
ghost use Rattle.at_kinds.specs.Accessors.{shape_of};
ghost use Rattle.at_typing.specs.Declaring.{class_text, name_text, synthesized_named, inherited_named};
ghost use Rattle.at_kinds.specs.Judging.{and_then};
ghost use Rattle.at_typing.specs.Meanings.{body_if, body_meant, attribute_meant, declared_alone, synthesized_meant, equation_meant, equation_below_meant, form_meant, meant as meant_by_itself};
ghost use Rattle.at_typing.specs.Numbering.{numbered_view};
ghost use Rattle.at_typing.specs.Ruling.{class_named, kind_named, max_parameters, param_named, params_named, can_be_passed, passed_if, is_kind, is_same, param_as_declared, as_declared, is_component, component_at, component_got, is_many, index_of_list, bound};
ghost use Rattle.at_typing.specs.Seen.{attribute_of, equation_view, Declares, AddsOwn, AddsInherited, Adds, IsAbout};
ghost use Rattle.at_kinds.specs.Signatures.{declared_view};
ghost use Rattle.at_kinds.specs.Typed.{bound_view, Judges};
ghost use Rattle.at_kinds.specs.declared.code.RuleCode.TheVariants as code;
ghost use Rattle.at_typing.specs.declared.numbered.Numbered.{Numbered as NumberedValue};
ghost use Rattle.at_text.specs.declared.fault.Fault.TheVariants.{Refused};
ghost use Rattle.at_rules.specs.declared.body.Kind.TheVariants as kinds;

use crate::attributes::Attributes;
use crate::firsts::put;
use crate::located::{body_in, class_word, index_name, is_inherited, is_lazy, params_in, start_in};
use crate::numbered::Numbered;
use crate::written::{as_written, known_kind};
use at_class::{ClassId, ClassTable, PartShape};
use at_jrag::{Body as Written, DeclForm, KindWord, Param, Params, Word};
use at_kinds::accessors::accessed;
use at_kinds::components::parts_of;
use at_kinds::signatures::{Signature, Signatures, WrittenKind};
use at_kinds::typing::{Bound, Scope, TypeFault, body_of};
use at_kinds::{Arguments, RuleCode};
use at_rules::{AttrId, Attribute, Body, Equations, Kind};
use at_text::fault::Fault;
use at_text::place::Place;
use std::alloc::{AllocError, Global};
use std::rc::Rc;

/// What a declaration is looked at among: the classes and all attributes, to which such arguments may be passed.
#[derive(Clone, Copy)]
pub struct Among<'a> {
    pub alloc: Global,
    pub classes: &'a ClassTable,
    pub arguments: Arguments,
    pub attributes: &'a Attributes,
    pub signatures: &'a Signatures,
}

impl Among<'_> {
    /// Adds what the declaration means.
    ///
    /// # Errors
    ///
    /// `Refused` for its first fault: of its classes, then of its component and index name, of its
    /// parameters, of its body. `Memory` for want of memory.
    pub fn add(&self, numbered: &Numbered, meant: &mut Equations) -> Result<(), TypeFault>
        ensures { (ds : List NumberedValue) → IsAbout ds self.now numbered.now
            → Adds (numbered_view numbered.now) numbered.now.name
            (meant_by_itself self.now.arguments self.now.classes.now (map numbered_view ds) (numbered_view numbered.now))
            meant.old meant.new result }
    {
        self.add_form(&numbered.decl.form, numbered, meant)
    }

    /// Adds what the declaration of that form means.
    fn add_form(
        &self,
        form: &DeclForm,
        numbered: &Numbered,
        meant: &mut Equations,
    ) -> Result<(), TypeFault>
        ensures { (ds : List NumberedValue) → IsAbout ds self.now numbered.now
            → Adds (numbered_view numbered.now) numbered.now.name
            (form_meant self.now.arguments self.now.classes.now (map numbered_view ds) (numbered_view numbered.now) (decl_form_view form.now))
            meant.old meant.new result }
    {
        match form {
            DeclForm::Synthesized { kind, .. } => self.add_synthesized(numbered, kind, meant),
            DeclForm::Inherited { kind, .. } => self.add_alone(numbered, kind, meant),
            DeclForm::Equation { class, body, .. } => {
                self.add_equation(numbered, class, body, meant)
            }
            DeclForm::InheritedEquation {
                class,
                getter,
                index,
                body,
                ..
            } => self.add_equation_below(numbered, class, getter, index.as_ref(), body, meant),
        }
    }

    /// Adds the synthesized attribute that is declared, and its equation, if it has a body.
    fn add_synthesized(
        &self,
        numbered: &Numbered,
        kind: &KindWord,
        meant: &mut Equations,
    ) -> Result<(), TypeFault>
        ensures { (ds : List NumberedValue) → IsAbout ds self.now numbered.now
            → Adds (numbered_view numbered.now) numbered.now.name
            (synthesized_meant self.now.arguments self.now.classes.now (map numbered_view ds) (numbered_view numbered.now) (kind_word_view kind.now))
            meant.old meant.new result }
    {
        let class = self.declare(numbered, kind, meant)?;
        match body_in(&numbered.decl.form) {
            Some(body) => self.add_own(class, self.synthesized(numbered), numbered, body, meant),
            None => Ok(()),
        }
    }

    /// Adds the attribute that is declared, without an equation.
    fn add_alone(
        &self,
        numbered: &Numbered,
        kind: &KindWord,
        meant: &mut Equations,
    ) -> Result<(), TypeFault>
        ensures { Adds (numbered_view numbered.now) numbered.now.name
            (and_then declared_alone (attribute_meant self.now.arguments self.now.classes.now (numbered_view numbered.now) (kind_word_view kind.now)))
            meant.old meant.new result }
    {
        self.declare(numbered, kind, meant)?;
        Ok(())
    }

    /// Adds the equation of the class for its own nodes.
    fn add_equation(
        &self,
        numbered: &Numbered,
        class: &Word,
        body: &Written,
        meant: &mut Equations,
    ) -> Result<(), TypeFault>
        ensures { (ds : List NumberedValue) → IsAbout ds self.now numbered.now
            → Adds (numbered_view numbered.now) numbered.now.name
            (equation_meant self.now.arguments self.now.classes.now (map numbered_view ds) (numbered_view numbered.now)
            (word_view class.now) (written_body body.now))
            meant.old meant.new result }
    {
        let class = self.class_named(class)?;
        self.add_own(class, self.synthesized(numbered), numbered, body, meant)
    }

    /// Adds the equation of the class for the nodes in the component that the getter gets, or in each one.
    fn add_equation_below(
        &self,
        numbered: &Numbered,
        class: &Word,
        getter: &Word,
        index: Option<&Word>,
        body: &Written,
        meant: &mut Equations,
    ) -> Result<(), TypeFault>
        ensures { (ds : List NumberedValue) → IsAbout ds self.now numbered.now
            → Adds (numbered_view numbered.now) numbered.now.name
            (equation_below_meant self.now.arguments self.now.classes.now (map numbered_view ds) (numbered_view numbered.now)
            (word_view class.now) (word_view getter.now) (option_map (λ w. word_view w.now) index.entry) (written_body body.now))
            meant.old meant.new result }
    {
        let class = self.class_named(class)?;
        let part = self.component_got(class, getter)?;
        self.index_of_list(class, part, index)?;
        self.add_inherited(class, part, self.inherited(numbered), numbered, body, meant)
    }

    /// The synthesized attribute of that name that the declaration's class or one above it declares.
    fn synthesized(&self, numbered: &Numbered) -> Option<AttrId>
        ensures { (ds : List NumberedValue) → IsAbout ds self.now numbered.now → result
            ≡ synthesized_named self.now.classes.now (map numbered_view ds) (class_text (numbered_view numbered.now)) (name_text (numbered_view numbered.now)) }
    {
        self.attributes
            .synthesized(self.classes, numbered.class, numbered.name)
    }

    /// The first inherited attribute of that name.
    fn inherited(&self, numbered: &Numbered) -> Option<AttrId>
        ensures { (ds : List NumberedValue) → IsAbout ds self.now numbered.now
            → result ≡ inherited_named (map numbered_view ds) (name_text (numbered_view numbered.now)) }
    {
        self.attributes.inherited(numbered.name)
    }

    /// Adds the attribute that is declared, whose values are of that kind, and returns its class.
    fn declare(
        &self,
        numbered: &Numbered,
        kind: &KindWord,
        meant: &mut Equations,
    ) -> Result<ClassId, TypeFault>
        ensures declared { Declares (numbered_view numbered.now) numbered.now.name
            (attribute_meant self.now.arguments self.now.classes.now (numbered_view numbered.now) (kind_word_view kind.now))
            meant.old.attributes.entries meant.new.attributes.entries result }
        ensures own { meant.new.own ≡ meant.old.own }
        ensures inherited { meant.new.inherited ≡ meant.old.inherited }
    {
        let (class, attribute) = self.attribute(numbered, kind)?;
        put(
            &mut meant.attributes,
            (class.index(), numbered.name),
            attribute,
        )?;
        Ok(class)
    }

    /// Adds the class's equation of that attribute for its own nodes.
    fn add_own(
        &self,
        class: ClassId,
        attribute: Option<AttrId>,
        numbered: &Numbered,
        body: &Written,
        meant: &mut Equations,
    ) -> Result<(), TypeFault>
        ensures added { AddsOwn class
            (body_meant self.now.arguments self.now.classes.now self.now.signatures.now class (numbered_view numbered.now) (written_body body.now) attribute)
            meant.old.own.entries meant.new.own.entries result }
        ensures attributes { meant.new.attributes ≡ meant.old.attributes }
        ensures inherited { meant.new.inherited ≡ meant.old.inherited }
    {
        let (attribute, body) = self.equation(class, attribute, numbered, body)?;
        put(&mut meant.own, (class.index(), attribute.index()), body)?;
        Ok(())
    }

    /// Adds the class's equation of the attribute for the nodes in the component, or in each one.
    fn add_inherited(
        &self,
        class: ClassId,
        part: Option<usize>,
        attribute: Option<AttrId>,
        numbered: &Numbered,
        body: &Written,
        meant: &mut Equations,
    ) -> Result<(), TypeFault>
        ensures added { AddsInherited class part numbered.now.name
            (body_meant self.now.arguments self.now.classes.now self.now.signatures.now class (numbered_view numbered.now) (written_body body.now) attribute)
            meant.old.inherited.entries meant.new.inherited.entries result }
        ensures attributes { meant.new.attributes ≡ meant.old.attributes }
        ensures own { meant.new.own ≡ meant.old.own }
    {
        let (_, body) = self.equation(class, attribute, numbered, body)?;
        put(
            &mut meant.inherited,
            (class.index(), part, numbered.name),
            body,
        )?;
        Ok(())
    }

    /// The attribute that is declared, whose values are of that kind, behind its class.
    fn attribute(
        &self,
        numbered: &Numbered,
        kind: &KindWord,
    ) -> Result<(ClassId, Attribute), TypeFault>
        ensures { Judges (attribute_of (numbered_view numbered.now))
            (attribute_meant self.now.arguments self.now.classes.now (numbered_view numbered.now) (kind_word_view kind.now)) result }
    {
        let form = &numbered.decl.form;
        let result = self.kind_named(kind)?;
        let class = self.class_named(class_word(form))?;
        let params = self.params_named(&params_in(form).items)?;
        let attribute = Attribute {
            params,
            result,
            is_lazy: is_lazy(form),
            is_inherited: is_inherited(form),
            start: start_in(form),
        };
        Ok((class, attribute))
    }

    /// The body of an equation of the class, behind its attribute: J9 at the declaration where there is none.
    fn equation(
        &self,
        class: ClassId,
        attribute: Option<AttrId>,
        numbered: &Numbered,
        body: &Written,
    ) -> Result<(AttrId, Body), TypeFault>
        ensures { Judges equation_view
            (body_meant self.now.arguments self.now.classes.now self.now.signatures.now class (numbered_view numbered.now)
            (written_body body.now) attribute) result }
    {
        let Some(attribute) = attribute else {
            return Err(undeclared(numbered));
        };
        let signature = self.signatures.get(attribute);
        let body = self.body(class, signature, numbered, body)?;
        Ok((attribute, body))
    }

    /// The body of an equation of the class for the attribute of which that is declared.
    fn body(
        &self,
        class: ClassId,
        signature: Option<&Signature>,
        numbered: &Numbered,
        body: &Written,
    ) -> Result<Body, TypeFault>
        ensures { Judges body_view
            (body_if self.now.arguments self.now.classes.now self.now.signatures.now class (numbered_view numbered.now) (written_body body.now)
            (option_map (λ s. declared_view s.now) signature.entry)) result }
    {
        let Some(signature) = signature else {
            return Err(undeclared(numbered));
        };
        let form = &numbered.decl.form;
        let params = params_in(form);
        self.params_as_declared(params, &signature.params)?;
        let names = self.names(&params.items)?;
        let scope = Scope {
            alloc: self.alloc,
            classes: self.classes,
            signatures: self.signatures,
            arguments: self.arguments,
            this: class,
            names: &names,
            index: index_name(form),
        };
        body_of(&scope, &body.expr, signature.result)
    }

    /// The names of the parameters, with their kinds.
    fn names(&self, params: &[Param]) -> Result<Vec<Bound>, AllocError>
        ensures { IfOk result (λ names. map bound_view names.items ≡ map (bound self.now.classes.now) (map param_view params.now)) }
    {
        let mut names = Vec::new(self.alloc);
        for param in params {
            names.push(self.bound(param)?)?;
        }
        Ok(names)
    }

    /// The name of the parameter, with its kind.
    fn bound(&self, param: &Param) -> Result<Bound, AllocError>
        ensures { IfOk result (λ b. bound_view b ≡ bound self.now.classes.now (param_view param.now)) }
    {
        Ok(Bound {
            name: Rc::new(
                self.alloc,
                String::from_str(self.alloc, param.name.text.as_str())?,
            )?,
            kind: as_written(None, known_kind(self.classes, &param.kind.kind)),
        })
    }

    /// The class of that name: J3 at the word where it isn't there.
    fn class_named(&self, class: &Word) -> Result<ClassId, TypeFault>
        ensures { Judges (λ c. c) (class_named self.now.classes.now (word_view class.now)) result }
    {
        match self.classes.id_of(class.text.as_str()) {
            Some(class) => Ok(class),
            None => Err(refused(RuleCode::UnknownName, class.at)),
        }
    }

    /// The kind that is written: J3 at the word where it names a class that isn't there.
    fn kind_named(&self, word: &KindWord) -> Result<Kind, TypeFault>
        ensures { Judges (λ k. k) (kind_named self.now.classes.now (kind_word_view word.now)) result }
    {
        match known_kind(self.classes, &word.kind) {
            Some(kind) => Ok(kind),
            None => Err(refused(RuleCode::UnknownName, word.at)),
        }
    }

    /// The kind of the parameter at that position. J5 at its word for one that can't be passed, and for a
    /// parameter too many.
    fn param_named(&self, position: usize, param: &Param) -> Result<Kind, TypeFault>
        ensures { Judges (λ k. k) (param_named self.now.arguments self.now.classes.now position (param_view param.now)) result }
    {
        let kind = self.kind_named(&param.kind)?;
        if can_be_passed(self.arguments, &kind) && position < max_parameters(self.arguments) {
            Ok(kind)
        } else {
            Err(refused(RuleCode::Argument, param.kind.at))
        }
    }

    /// The kinds of the parameters.
    fn params_named(&self, params: &[Param]) -> Result<Vec<Kind>, TypeFault>
        ensures { Judges (λ ks. ks.items) (params_named self.now.arguments self.now.classes.now 0 (map param_view params.now)) result }
    {
        let mut kinds = Vec::new(self.alloc);
        for (position, param) in params.iter().enumerate() {
            let kind: Kind = self.param_named(position, param)?;
            kinds.push(kind)?;
        }
        Ok(kinds)
    }

    /// J5 where the parameters of an equation aren't those of the attribute: at the first one that is wrong
    /// or too many, or at the end where one is missing.
    fn params_as_declared(&self, params: &Params, declared: &[WrittenKind]) -> Result<(), TypeFault>
        ensures { Judges (λ u. tt)
            (as_declared self.now.arguments self.now.classes.now declared.now (params_view params.now).end 0 (params_view params.now).items) result }
    {
        for (position, param) in params.items.iter().enumerate() {
            self.param_as_declared(position, param, declared)?;
        }
        if params.items.len() < declared.len() {
            return Err(refused(RuleCode::Argument, params.end));
        }
        Ok(())
    }

    /// J5 where the parameter at that position isn't the one that is declared.
    fn param_as_declared(
        &self,
        position: usize,
        param: &Param,
        declared: &[WrittenKind],
    ) -> Result<Kind, TypeFault>
        ensures { Judges (λ k. k) (param_as_declared self.now.arguments self.now.classes.now declared.now position (param_view param.now)) result }
    {
        let kind = self.param_named(position, param)?;
        if is_kind(declared.get(position), &kind) {
            Ok(kind)
        } else {
            Err(refused(RuleCode::Argument, param.kind.at))
        }
    }

    /// The component that the getter gets, or none for the one that gets each. J3 at its word where the class
    /// has no such component, or a token.
    fn component_got(&self, class: ClassId, getter: &Word) -> Result<Option<usize>, TypeFault>
        ensures { Judges (λ p. p) (component_got self.now.classes.now class (word_view getter.now)) result }
    {
        let name = getter.text.as_str();
        if name == "getChild" {
            return Ok(None);
        }
        self.component_at(class, getter.at, accessed(self.classes, class, name))
    }

    /// That component, whose getter stands there: J3 there where there is none, or a token.
    fn component_at(
        &self,
        class: ClassId,
        at: Place,
        part: Option<usize>,
    ) -> Result<Option<usize>, TypeFault>
        ensures { Judges (λ p. p) (component_at self.now.classes.now class at part) result }
    {
        let Some(part) = part else {
            return Err(refused(RuleCode::UnknownName, at));
        };
        if is_component(self.shape(class, part)) {
            Ok(Some(part))
        } else {
            Err(refused(RuleCode::UnknownName, at))
        }
    }

    /// J3 at the index name of an equation for what is no list.
    fn index_of_list(
        &self,
        class: ClassId,
        part: Option<usize>,
        index: Option<&Word>,
    ) -> Result<(), TypeFault>
        ensures { Judges (λ u. tt) (index_of_list self.now.classes.now class part (option_map (λ w. word_view w.now) index.entry)) result }
    {
        let Some(index) = index else {
            return Ok(());
        };
        if self.is_list_there(class, part) {
            Ok(())
        } else {
            Err(refused(RuleCode::UnknownName, index.at))
        }
    }

    /// Whether the component is a list.
    fn is_list_there(&self, class: ClassId, part: Option<usize>) -> bool
        ensures { result ≡ is_many (option_and_then (shape_of (parts self.now.classes.now class)) part) }
    {
        match part {
            Some(part) => is_many(self.shape(class, part)),
            None => false,
        }
    }

    fn shape(&self, class: ClassId, part: usize) -> Option<PartShape>
        ensures { option_map shape_view result ≡ shape_of (parts self.now.classes.now class) part }
    {
        let part = parts_of(self.classes, class).get(part)?;
        Some(part.shape)
    }
}

/// How many parameters an attribute may have.
#[tactic(auto, unfolding(crate::specs::Ruling::max_parameters))]
fn max_parameters(arguments: Arguments) -> usize
    ensures { result ≡ max_parameters arguments }
{
    match arguments {
        Arguments::Given => 2,
        Arguments::Computed => 4,
    }
}

/// Whether values of the kind can be passed: texts and nodes; where what is computed may be an argument, ints and booleans, too.
fn can_be_passed(arguments: Arguments, kind: &Kind) -> bool
    ensures { result ≡ can_be_passed arguments kind.now }
{
    match arguments {
        Arguments::Given => !is_numeric(kind),
        Arguments::Computed => true,
    }
}

/// Whether it is the kind of ints or of booleans.
fn is_numeric(kind: &Kind) -> bool
    ensures { result ≡ is_numeric kind.now }
{
    matches!(kind, Kind::Int | Kind::Bool)
}

/// Whether that is the kind which is declared.
fn is_kind(declared: Option<&WrittenKind>, kind: &Kind) -> bool
    ensures { result ≡ is_kind (option_map (λ k. k.now) declared.entry) kind.now }
{
    match declared {
        Some(declared) => is_known(declared, kind),
        None => false,
    }
}

fn is_known(declared: &WrittenKind, kind: &Kind) -> bool
    ensures { result ≡ is_kind (Some declared.now) kind.now }
{
    match declared {
        WrittenKind::Known(declared) => is_same(declared, kind),
        WrittenKind::Strange(_) => false,
    }
}

fn is_same(declared: &Kind, kind: &Kind) -> bool
    ensures { result ≡ is_same declared.now kind.now }
{
    match declared {
        Kind::Int => matches!(kind, Kind::Int),
        Kind::Bool => matches!(kind, Kind::Bool),
        Kind::Text => matches!(kind, Kind::Text),
        Kind::Class(class) => is_of_class(*class, kind),
    }
}

fn is_of_class(class: ClassId, kind: &Kind) -> bool
    ensures { result ≡ is_same (kinds.Class class) kind.now }
{
    match kind {
        Kind::Class(other) => class.index() == other.index(),
        _ => false,
    }
}

fn is_component(shape: Option<PartShape>) -> bool
    ensures { result ≡ is_component (option_map shape_view shape) }
{
    match shape {
        Some(PartShape::Tok(_)) | None => false,
        Some(_) => true,
    }
}

fn is_many(shape: Option<PartShape>) -> bool
    ensures { result ≡ is_many (option_map shape_view shape) }
{
    matches!(shape, Some(PartShape::Many(_)))
}

fn refused(code: RuleCode, at: Place) -> TypeFault
    ensures { result ≡ Refused code at }
{
    Fault::Refused { code, at }
}

/// The fault of an equation whose attribute isn't declared.
fn undeclared(numbered: &Numbered) -> TypeFault
    ensures { result ≡ Refused code.EquationWithoutAttribute (numbered_view numbered.now).decl.at }
{
    refused(RuleCode::EquationWithoutAttribute, numbered.decl.at)
}
