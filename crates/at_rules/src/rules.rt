//! The rules of a server: classes, attributes, and the bodies of their equations, whose kinds are right.

use crate::attribute::AttrId;
use crate::body::{Body, Kind};
use crate::counted::Counted;
use crate::dispatch::{Dispatch, Precedence};
use crate::first_named::declared_above;
use crate::guesses::Guesses;
use crate::holders::Holders;
use crate::names::number_of;
use at_class::{ClassId, ClassTable};
use indexmap::{IndexMap, IndexSet};
use std::alloc::Global;
use std::marker::Model;

/// An attribute that a class declares: the kinds of its parameters and of its value, whether its values are
/// kept, whether its equations stand above, and the value from which it starts, where it is circular.
#[derive(Drop)]
pub struct Attribute {
    pub params: Vec<Kind>,
    pub result: Kind,
    pub is_lazy: bool,
    pub is_inherited: bool,
    pub start: Option<bool>,
}

/// Attributes and equations, in the order of their declarations. Classes stand here by their positions, and
/// names by their numbers.
pub struct Equations {
    /// By class and name.
    pub attributes: IndexMap<(usize, usize), Attribute>,
    /// By class and attribute.
    pub own: IndexMap<(usize, usize), Body>,
    /// By class, component and name; without a component the equation is for each one.
    pub inherited: IndexMap<(usize, Option<usize>, usize), Body>,
}

/// One call, where each exit that lets it go would else have a case for each collection.
impl Drop for Equations {
    fn drop(self) {
        let Equations {
            attributes: _,
            own: _,
            inherited: _,
        } = self;
    }
}

impl Equations {
    ghost use Rattle.std.specs.Prelude.{◌≡◌, []};

    /// None.
    pub fn new(alloc: Global) -> Equations
        ensures attributes { result.attributes.entries ≡ [] }
        ensures own { result.own.entries ≡ [] }
        ensures inherited { result.inherited.entries ≡ [] }
    {
        Equations {
            attributes: IndexMap::new(alloc),
            own: IndexMap::new(alloc),
            inherited: IndexMap::new(alloc),
        }
    }
}

/// Classes, their attributes and their equations.
pub struct Rules {
    classes: ClassTable,
    names: IndexSet<String>,
    guesses: Guesses,
    equations: Equations,
    // By class and attribute the position of the body, and by class and name that of the attribute.
    bodies: Dispatch,
    declared: Dispatch,
    holders: Holders,
    counted: Counted,
}

/// One call, where each exit that lets it go would else have a case for each collection.
impl Drop for Rules {
    fn drop(self) {
        let Rules {
            classes: _,
            names: _,
            guesses: _,
            equations: _,
            bodies: _,
            declared: _,
            holders: _,
            counted: _,
        } = self;
    }
}

impl Model for Rules {
    ghost use Rattle.at_model.specs.Rules.{Rules as Meant};
    ghost use Rattle.at_class.specs.Codes.{cell_code};
    ghost use Rattle.at_rules.specs.Marks.{expr_code};
    ghost use Rattle.std.specs.Coded.{codes};

    ghost Value = { Meant };

    ghost coded = { Prim.hlevel (codes, expr_code, cell_code) };

    ghost use Rattle.std.specs.Prelude.{map};
    ghost use Rattle.at_rules.specs.RulesView.{attribute_view, own_view, inherited_view, named, text_of};

    ghost view = { λ r. record { classes = r.classes; attributes = map (attribute_view r.names.keys) r.equations.attributes.entries; own = map own_view r.equations.own.entries; inherited = map (inherited_view r.names.keys) (named r.names.keys r.equations.inherited.entries) } };

    ghost use Rattle.std.specs.Map.{keys_of};
    ghost use Rattle.at_rules.specs.Tables.{AreTables};

    ghost invariant = { λ r. AreTables (text_of r.names.keys) r.classes r.equations r.bodies r.declared r.holders r.counted };
}

impl Rules {
    ghost use Rattle.std.specs.Prelude.{◌≡◌, ◌<◌, [], ◌∷◌, length, map, option_map, slice_get, IfSome};
    ghost use Rattle.at_model.specs.Machine.{parameters_of, takes_numbers};
    ghost use Rattle.at_model.specs.Rules.{attribute_asked, attribute_name, attribute_named, first_answer, inherited_equation, is_inherited, is_lazy, name_by, own_equation, own_in, plain_name, start_of};
    ghost use Rattle.at_rules.specs.Bodies.{body_view, kind_view};
    ghost use Rattle.at_rules.specs.RulesView.{attribute_view, own_view, inherited_view, named};
    ghost use Rattle.at_rules.specs.Upward.{result_of};

    /// The rules of these attributes and equations over the classes, where these are the names by their
    /// numbers. Where memory is wanting for the tables of what is found upward, look-ups climb.
    pub fn new(
        alloc: Global,
        classes: ClassTable,
        names: IndexSet<String>,
        equations: Equations,
    ) -> Rules
        ensures classes { result.classes ≡ classes }
        ensures attributes { result.attributes ≡ map (attribute_view names.keys) equations.attributes.entries }
        ensures own { result.own ≡ map own_view equations.own.entries }
        ensures inherited { result.inherited ≡ map (inherited_view names.keys) (named names.keys equations.inherited.entries) }
    {
        let bodies = Dispatch::new(
            alloc,
            &classes,
            &equations.own,
            equations.attributes.len(),
            Precedence::Nearest,
        );
        let declared = Dispatch::new(
            alloc,
            &classes,
            &equations.attributes,
            names.len(),
            Precedence::Earliest,
        );
        let holders = Holders::of(alloc, &classes, &equations.inherited, names.len());
        let guesses = Guesses::of(alloc, &names);
        let counted = Counted::of(alloc, &names);
        Rules {
            classes,
            names,
            guesses,
            equations,
            bodies,
            declared,
            holders,
            counted,
        }
    }

    /// The classes, the names by their numbers, and the attributes and equations: what rules are made of.
    pub fn into_parts(self) -> (ClassTable, IndexSet<String>, Equations)
        ensures classes { result.0 ≡ self.classes }
        ensures attributes { map (attribute_view result.1.keys) result.2.attributes.entries ≡ self.attributes }
        ensures own { map own_view result.2.own.entries ≡ self.own }
        ensures inherited { map (inherited_view result.1.keys) (named result.1.keys result.2.inherited.entries) ≡ self.inherited }
    {
        let Rules {
            classes,
            names,
            guesses: _,
            equations,
            bodies: _,
            declared: _,
            holders: _,
            counted: _,
        } = self;
        (classes, names, equations)
    }

    /// The classes.
    pub fn classes(&self) -> &ClassTable
        ensures { result.now ≡ self.now.classes }
    {
        &self.classes
    }

    /// How many attributes are declared: their numbers are those below.
    pub fn len(&self) -> usize
        ensures { result ≡ length self.now.attributes }
    {
        self.equations.attributes.len()
    }

    /// The attribute of that name that the class or one above it declares: the first one among the
    /// declarations. Of the name without characters, which no attribute has, nothing is said.
    pub fn attribute(&self, class: ClassId, name: &str) -> Option<AttrId>
        ensures within { IfSome result (λ a. a < length self.now.attributes) }
        ensures named { (name.now ≡ [] → ⊥) → result ≡ attribute_named self.now class name.now }
    {
        let name = number_named(&self.names, &self.guesses, name)?;
        let position = declared_up(
            &self.declared,
            &self.classes,
            &self.equations.attributes,
            class,
            name,
        )?;
        Some(AttrId::new(position))
    }

    /// The attribute that a question by that name with so many arguments is of. Of several of that name it is the one with as many
    /// parameters, if there is one. Of the name without characters nothing is said.
    #[inline(always)]
    pub fn attribute_asked(&self, class: ClassId, name: &str, count: usize) -> Option<AttrId>
        ensures within { IfSome result (λ a. a < length self.now.attributes) }
        ensures named { (name.now ≡ [] → ⊥) → result ≡ attribute_asked self.now class name.now count }
    {
        if self.counted.are_none() {
            return self.attribute(class, name);
        }
        self.attribute_among(class, name, count)
    }

    /// The same, where attributes are overloaded.
    #[inline(never)]
    fn attribute_among(&self, class: ClassId, name: &str, count: usize) -> Option<AttrId>
        ensures within { IfSome result (λ a. a < length self.now.attributes) }
        ensures named { (name.now ≡ [] → ⊥) → result ≡ attribute_asked self.now class name.now count }
    {
        if let Some(found) = self.attribute_by(class, name, count) {
            return Some(found);
        }
        if let Some(found) = self.attribute(class, name) {
            return Some(found);
        }
        self.attribute_by_any(class, name)
    }

    /// The first attribute that is overloaded by that name, by the number of its parameters.
    fn attribute_by_any(&self, class: ClassId, name: &str) -> Option<AttrId>
        ensures within { IfSome result (λ a. a < length self.now.attributes) }
        ensures named { result ≡ first_answer (λ count. attribute_named self.now class (name_by name.now count)) (0 ∷ 1 ∷ 2 ∷ 3 ∷ 4 ∷ []) }
    {
        for count in 0..5 {
            if let Some(found) = self.attribute_by(class, name, count) {
                return Some(found);
            }
        }
        None
    }

    /// The attribute that is overloaded by that name and has so many parameters.
    fn attribute_by(&self, class: ClassId, name: &str, count: usize) -> Option<AttrId>
        ensures within { IfSome result (λ a. a < length self.now.attributes) }
        ensures named { result ≡ attribute_named self.now class (name_by name.now count) }
    {
        let name = self.counted.number(&self.names, name, count)?;
        let position = declared_up(
            &self.declared,
            &self.classes,
            &self.equations.attributes,
            class,
            name,
        )?;
        Some(AttrId::new(position))
    }

    /// Whether an attribute has ints or booleans as parameters.
    pub fn takes_numbers(&self) -> bool
        ensures { result ≡ takes_numbers self.now }
    {
        have_numbers(&self.equations.attributes)
    }

    /// The kinds of the attribute's parameters.
    pub fn params(&self, attribute: AttrId) -> &[Kind]
        ensures { map kind_view result.now ≡ parameters_of self.now attribute }
    {
        match self.equations.attributes.get_index(attribute.index()) {
            Some((_, declared)) => &declared.params,
            None => &[],
        }
    }

    /// The kind of the attribute's values.
    pub fn result_kind(&self, attribute: AttrId) -> Kind
        ensures { kind_view result ≡ result_of self.now attribute }
    {
        match self.equations.attributes.get_index(attribute.index()) {
            Some((_, declared)) => declared.result,
            None => Kind::Int,
        }
    }

    /// The attribute's name; nothing for a number that no attribute has.
    pub fn name_of(&self, attribute: AttrId) -> &str
        ensures { result.now ≡ attribute_name self.now attribute }
    {
        match self.equations.attributes.get_index(attribute.index()) {
            Some((key, _)) => text_at(&self.names, key.1),
            None => "",
        }
    }

    /// The attribute's name as lines and replies have it, without the number by which it is overloaded.
    pub fn told_name(&self, attribute: AttrId) -> &str
        ensures { result.now ≡ plain_name (attribute_name self.now attribute) }
    {
        to_slash(self.name_of(attribute))
    }

    /// The class that declares the attribute; none for a number that no attribute has.
    pub fn class_of(&self, attribute: AttrId) -> Option<ClassId>
        ensures { result ≡ option_map (λ a. a.class) (slice_get self.now.attributes attribute) }
    {
        match self.equations.attributes.get_index(attribute.index()) {
            Some((key, _)) => Some(ClassId::new(key.0)),
            None => None,
        }
    }

    /// Whether the values of the attribute are kept; `false` for a number that no attribute has.
    pub fn is_lazy(&self, attribute: AttrId) -> bool
        ensures { result ≡ is_lazy self.now attribute }
    {
        match self.equations.attributes.get_index(attribute.index()) {
            Some((_, declared)) => declared.is_lazy,
            None => false,
        }
    }

    /// The value from which the attribute starts, where it is circular; none for a number that no attribute has.
    pub fn start_of(&self, attribute: AttrId) -> Option<bool>
        ensures { result ≡ start_of self.now attribute }
    {
        match self.equations.attributes.get_index(attribute.index()) {
            Some((_, declared)) => declared.start,
            None => None,
        }
    }

    /// Whether the equations of the attribute stand above its nodes; `false` for a number that no attribute
    /// has.
    pub fn is_inherited(&self, attribute: AttrId) -> bool
        ensures { result ≡ is_inherited self.now attribute }
    {
        match self.equations.attributes.get_index(attribute.index()) {
            Some((_, declared)) => declared.is_inherited,
            None => false,
        }
    }

    /// The body of the equation that nodes of the class have for an attribute of their own: that of the first
    /// class upward that has one.
    #[inline(always)]
    pub fn own_body(&self, class: ClassId, attribute: AttrId) -> Option<&Body>
        ensures { option_map (λ b. body_view b.now) result ≡ own_equation self.now class attribute }
    {
        match self.bodies.cell(class, attribute.index()) {
            Some(cell) => body_at(&self.equations.own, cell.position()),
            None => self.own_above(class, attribute),
        }
    }

    /// The same, where the table says nothing.
    fn own_above(&self, class: ClassId, attribute: AttrId) -> Option<&Body>
        ensures { option_map (λ b. body_view b.now) result ≡ own_equation self.now class attribute }
    {
        self.classes
            .first_upward(class, |above| self.own_in(above, attribute))
    }

    /// The body of the equation that the class itself has for the attribute.
    pub fn own_in(&self, class: ClassId, attribute: AttrId) -> Option<&Body>
        ensures { option_map (λ b. body_view b.now) result ≡ own_in self.now attribute class }
    {
        self.equations.own.get(&(class.index(), attribute.index()))
    }

    /// The body of the equation that nodes of the class have for that inherited attribute of the nodes in a
    /// component: in the first class upward that has one, the one for the component before the one for each.
    pub fn inherited_body(&self, class: ClassId, part: usize, attribute: AttrId) -> Option<&Body>
        ensures { option_map (λ b. body_view b.now) result ≡ inherited_equation self.now class part (attribute_name self.now attribute) }
    {
        let name = name_number(&self.names, &self.equations.attributes, attribute)?;
        inherited_up(
            &self.holders,
            &self.classes,
            &self.equations.inherited,
            class,
            part,
            name,
        )
    }
}

ghost use Rattle.std.specs.Prelude.{◌≡◌, ◌<◌, true, false, Some, length, option_map, option_and_then, IfNone, IfSome};
ghost use Rattle.std.specs.List.{IsDistinct};
ghost use Rattle.std.specs.String.{string_eq};
ghost use Rattle.at_model.specs.Classes.{chain};
ghost use Rattle.at_model.specs.Rules.{first_answer, plain_name};
ghost use Rattle.at_rules.specs.Bodies.{body_view, is_numeric};
ghost use Rattle.at_rules.specs.RulesView.{text_of, name_in, numbered_in, LacksText};
ghost use Rattle.at_rules.specs.declared.dispatch.Precedence.TheVariants.{Earliest};
ghost use Rattle.at_rules.specs.Dispatch.{body_at, found_up, AreRight};
ghost use Rattle.at_rules.specs.Holding.{AreHolders};
ghost use Rattle.at_rules.specs.Upward.{declared_in};
ghost use Rattle.std.specs.Map.{keys_of};
ghost use Rattle.std.specs.Prelude.{position, string_bytes, bytes_eq};
ghost use Rattle.std.specs.List.{list_any};

/// Whether one of the attributes has ints or booleans as parameters.
fn have_numbers(attributes: &IndexMap<(usize, usize), Attribute>) -> bool
    ensures { result ≡ list_any (λ e. list_any is_numeric e.1.params.items) attributes.now.entries }
{
    for position in 0..attributes.len() {
        if let Some((_, attribute)) = attributes.get_index(position)
            && has_numbers(attribute)
        {
            return true;
        }
    }
    false
}

/// Whether the attribute has ints or booleans as parameters.
fn has_numbers(attribute: &Attribute) -> bool
    ensures { result ≡ list_any is_numeric attribute.now.params.items }
{
    attribute.params.iter().any(|kind| is_numeric(*kind))
}

/// Whether it is the kind of ints or of booleans.
fn is_numeric(kind: Kind) -> bool
    ensures { result ≡ is_numeric kind }
{
    matches!(kind, Kind::Int | Kind::Bool)
}

/// The number of the name, where it is one: most are guessed.
fn number_named(names: &IndexSet<String>, guesses: &Guesses, name: &str) -> Option<usize>
    ensures index { result ≡ position (λ k. bytes_eq name.now (string_bytes k)) names.now.keys }
    ensures found { IfNone result (false ≡ list_any (λ k. bytes_eq name.now (string_bytes k)) names.now.keys) }
    ensures distinct { IsDistinct string_eq names.now.keys }
{
    match guessed(names, guesses, name) {
        Some(number) => Some(number),
        None => number_of(names, name),
    }
}

/// The number that is guessed for the name, where it is the name's.
fn guessed(names: &IndexSet<String>, guesses: &Guesses, name: &str) -> Option<usize>
    ensures { IfSome result (λ n. (position (λ k. bytes_eq name.now (string_bytes k)) names.now.keys ≡ Some n) × IsDistinct string_eq names.now.keys) }
{
    let number = guesses.number(name)?;
    if is_number(names, number, name) {
        Some(number)
    } else {
        None
    }
}

/// Whether this is the number of the name.
fn is_number(names: &IndexSet<String>, number: usize, name: &str) -> bool
    ensures { result ≡ true → (position (λ k. bytes_eq name.now (string_bytes k)) names.now.keys ≡ Some number) × IsDistinct string_eq names.now.keys }
{
    if number >= names.len() {
        return false;
    }
    match names.get_index(number) {
        Some(known) => known.as_str() == name,
        None => false,
    }
}

/// The body at the position, if there is one.
fn body_at(own: &IndexMap<(usize, usize), Body>, position: Option<usize>) -> Option<&Body>
    ensures { option_map (λ b. body_view b.now) result ≡ option_and_then (body_at own.now.entries) position }
{
    match own.get_index(position?) {
        Some((_, body)) => Some(body),
        None => None,
    }
}

/// The position of the first attribute of the name of that number that the class or one above it declares: by the
/// table, or by climbing where it says nothing.
fn declared_up(
    table: &Dispatch,
    classes: &ClassTable,
    attributes: &IndexMap<(usize, usize), Attribute>,
    class: ClassId,
    name: usize,
) -> Option<usize>
    requires { AreRight (found_up Earliest (keys_of attributes.now.entries) classes.now) table.now.rows.items }
    ensures { result ≡ declared_in (keys_of attributes.now.entries) name (chain classes.now class) }
{
    match table.cell(class, name) {
        Some(cell) => cell.position(),
        None => declared_above(classes, attributes, class, name),
    }
}

/// The number of the attribute's name. A number that no attribute has stands for the name without characters.
fn name_number(
    names: &IndexSet<String>,
    attributes: &IndexMap<(usize, usize), Attribute>,
    attribute: AttrId,
) -> Option<usize>
    ensures found { IfSome result (λ n. (n < length names.now.keys) × (text_of names.now.keys n ≡ name_in names.now.keys attributes.now.entries attribute)) }
    ensures absent { IfNone result (LacksText names.now.keys (name_in names.now.keys attributes.now.entries attribute)) }
    ensures distinct { IsDistinct string_eq names.now.keys }
{
    let count = names.len();
    if let Some((key, _)) = attributes.get_index(attribute.index()) {
        if key.1 < count {
            return Some(key.1);
        }
    }
    names.get_index_of("")
}

/// The body of the equation for the name of that number and a component: in the first class upward that has
/// one, the one for the component before the one for each. The way up begins at the first class that has an
/// equation for the name, where that is known.
fn inherited_up<'a>(
    holders: &Holders,
    classes: &ClassTable,
    inherited: &'a IndexMap<(usize, Option<usize>, usize), Body>,
    class: ClassId,
    part: usize,
    name: usize,
) -> Option<&'a Body>
    requires { AreHolders classes.now inherited.now.entries holders.now.held.entries holders.now.table.rows.items }
    ensures { option_map (λ b. body_view b.now) result ≡ first_answer (numbered_in inherited.now.entries name part) (chain classes.now class) }
{
    match holders.cell(class, name) {
        Some(cell) => {
            let holder = holders.class_at(cell)?;
            inherited_above(classes, inherited, holder, part, name)
        }
        None => inherited_above(classes, inherited, class, part, name),
    }
}

/// The same, by climbing from the class.
fn inherited_above<'a>(
    classes: &ClassTable,
    inherited: &'a IndexMap<(usize, Option<usize>, usize), Body>,
    class: ClassId,
    part: usize,
    name: usize,
) -> Option<&'a Body>
    ensures { option_map (λ b. body_view b.now) result ≡ first_answer (numbered_in inherited.now.entries name part) (chain classes.now class) }
{
    classes.first_upward(class, |above| inherited_in(inherited, above, part, name))
}

/// The body of the equation that the class itself has for the name and the component, or for the name and
/// each component.
fn inherited_in<'a>(
    inherited: &'a IndexMap<(usize, Option<usize>, usize), Body>,
    class: ClassId,
    part: usize,
    name: usize,
) -> Option<&'a Body>
    ensures { option_map (λ b. body_view b.now) result ≡ numbered_in inherited.now.entries name part class }
{
    match inherited.get(&(class.index(), Some(part), name)) {
        Some(body) => Some(body),
        None => inherited.get(&(class.index(), None, name)),
    }
}

/// The text before its first slash, all of it where it has none.
fn to_slash(text: &str) -> &str
    ensures { result.now ≡ plain_name text.now }
{
    match text.find('/') {
        Some(at) => text.split_at(at).0,
        None => text,
    }
}

/// The name of that number, nothing where there is none.
fn text_at(names: &IndexSet<String>, number: usize) -> &str
    ensures { result.now ≡ text_of names.now.keys number }
{
    match names.get_index(number) {
        Some(text) => text.as_str(),
        None => "",
    }
}
