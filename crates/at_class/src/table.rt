//! The class table: how it is built, and what it is asked.
use crate::class::classes_declared;
use crate::entry::{Entry, entries_of};
use crate::fault::ClassFault;
use crate::fixing::{Fixed, fix_all};
use crate::intervals::{Interval, interval_of, intervals_of};
use crate::names::class_named;
use crate::part::{ClassId, Part, position_named};
use crate::rules::{known_names, refuse_classes};
use at_grammar::{ClassDecl, Grammar};
use indexmap::IndexSet;
use std::alloc::Global;
use std::marker::Model;

/// The classes of an abstract grammar without faults. A class is known by its position among the declarations.
pub struct ClassTable {
    names: IndexSet<String>,
    // What is kept of each class, in the order of the names.
    entries: Vec<Entry>,
    // The numbers of each class and of those below it, which tell at once whether a class is below another one.
    intervals: Vec<Interval>,
    // The class of whole trees.
    start: ClassId,
    // Whether something is fixed in a component.
    has_fixed: bool,
}

/// One call, where each exit that lets it go would else have a case for each collection.
impl Drop for ClassTable {
    fn drop(self) {
        let ClassTable {
            names: _,
            entries: _,
            intervals: _,
            start: _,
            has_fixed: _,
        } = self;
    }
}

impl Model for ClassTable {
    ghost use Rattle.at_model.specs.Classes.{Classes};
    ghost use Rattle.at_class.specs.Codes.{cell_code};
    ghost use Rattle.std.specs.Coded.{codes};

    ghost Value = { Classes };

    ghost coded = { Prim.hlevel (codes, cell_code) };

    ghost use Rattle.at_class.specs.Table.{IsTable, table_view};

    ghost view = { λ t. table_view t.names.keys t.entries.items };

    ghost invariant = { λ t. IsTable t.names.keys t.entries.items t.intervals.items t.start t.has_fixed };
}

impl ClassTable {
    ghost use Rattle.std.specs.Prelude.{◌≡◌, ◌<◌, ◌≤◌, IfOk, IfErr, IfSome, IsTrue, None, length, map, not};
    ghost use Rattle.at_model.specs.Classes.{AreSound, chain, class_of_name, fits, name_of, is_concrete, is_sub, parent_of, parts};
    ghost use Rattle.at_model.specs.WellFormed.{IsHierarchy};
    ghost use Rattle.at_model.specs.Declarations.{AreNamed, classes_of, first_fault};
    ghost use Rattle.at_model.specs.Paths.{ArePartsApart, part_named};
    ghost use Rattle.at_class.specs.View.{part_view};
    ghost use Rattle.at_class.specs.Upward.{AnswersFirst};
    ghost use Rattle.at_class.specs.Grammar.{grammar_view};
    ghost use Rattle.at_class.specs.Faults.{IsRefusedFor};
    ghost use Rattle.at_class.specs.Fixing.{fixed_as, fixed_view};
    ghost use Rattle.at_class.specs.Table.{HasNoneFixed};

    /// The table of the classes that the grammar declares. A grammar that breaks a rule is refused: of several rules the first in
    /// the order of `ClassCode` counts, at its earliest place. `Memory` where memory is wanting.
    pub fn build(alloc: Global, grammar: &Grammar) -> Result<ClassTable, ClassFault>
        requires { AreNamed (grammar_view grammar.now) }
        ensures faultless { IfOk result (λ t. first_fault (grammar_view grammar.now) ≡ None) }
        ensures built { IfOk result (λ t. t ≡ classes_of (grammar_view grammar.now)) }
        ensures hierarchy { IfOk result IsHierarchy }
        ensures refused { IfErr result (IsRefusedFor (grammar_view grammar.now)) }
    {
        table_of(alloc, &grammar.classes, &[])
    }

    /// The same table, but that in these components the same stands in each tree.
    pub fn build_fixed(
        alloc: Global,
        grammar: &Grammar,
        fixed: &[Fixed],
    ) -> Result<ClassTable, ClassFault>
        requires { AreNamed (grammar_view grammar.now) }
        ensures faultless { IfOk result (λ t. first_fault (grammar_view grammar.now) ≡ None) }
        ensures built { IfOk result (λ t. t ≡ fixed_as (map fixed_view fixed.now) (classes_of (grammar_view grammar.now))) }
        ensures hierarchy { IfOk result IsHierarchy }
        ensures refused { IfErr result (IsRefusedFor (grammar_view grammar.now)) }
    {
        table_of(alloc, &grammar.classes, fixed)
    }

    /// How many classes there are: their numbers are those below. Each superclass is one of them, no class is above itself, and no two
    /// components of a class have one name, inherited ones counted.
    pub fn len(&self) -> usize
        ensures len { result ≡ length self.now }
        ensures sound { AreSound self.now }
        ensures hierarchy { IsHierarchy self.now }
        ensures apart { ArePartsApart self.now }
    {
        self.entries.len()
    }

    /// The first class that is declared.
    pub fn start(&self) -> ClassId
        ensures first { result ≡ 0 }
        ensures within { result < length self.now }
        ensures sound { AreSound self.now }
    {
        self.start
    }

    /// Whether something is fixed in a component of a class. Where it isn't, no component is.
    pub fn has_fixed(&self) -> bool
        ensures { IsTrue (not result) → HasNoneFixed self.now }
    {
        self.has_fixed
    }

    /// The class of that name.
    pub fn id_of(&self, name: &str) -> Option<ClassId>
        ensures found { result ≡ class_of_name self.now name.now }
        ensures within { IfSome result (λ c. c < length self.now) }
        ensures sound { AreSound self.now }
    {
        class_named(&self.names, name)
    }

    /// The class's name.
    pub fn name_of(&self, class: ClassId) -> &str
        requires { class < length self.now }
        ensures { result.now ≡ name_of self.now class }
    {
        self.names[class.index()].as_str()
    }

    /// Whether the class is abstract: it has no instances.
    pub fn is_abstract(&self, class: ClassId) -> bool
        requires { class < length self.now }
        ensures { is_concrete self.now class ≡ not result }
    {
        self.entries[class.index()].is_abstract
    }

    /// The class's superclass, where it has one.
    pub fn parent(&self, class: ClassId) -> Option<ClassId>
        ensures found { result ≡ parent_of self.now class }
        ensures sound { AreSound self.now }
    {
        self.entries.get(class.index())?.parent
    }

    /// What the first class upward answers that has an answer, from this one on.
    pub fn first_upward<T, F: Fn(ClassId) -> Option<T>>(
        &self,
        class: ClassId,
        answer: F,
    ) -> Option<T>
        requires { F.IsAlwaysCallable answer }
        ensures { AnswersFirst (F.post answer) (chain self.now class) result }
    {
        let mut next = Some(class);
        for step in 0..self.len() {
            let Some(met) = next else { return None };
            if let Some(found) = answer(met) {
                return Some(found);
            }
            next = self.parent(met);
        }
        None
    }

    /// Whether the class is the other one or below it.
    pub fn is_sub(&self, class: ClassId, above: ClassId) -> bool
        ensures { result ≡ is_sub self.now class above }
    {
        let own = interval_of(&self.intervals, class);
        if own.is_empty() {
            return self.climbs_to(class, above);
        }
        interval_of(&self.intervals, above).has(own.first)
    }

    // The same, of a class without a number.
    fn climbs_to(&self, class: ClassId, above: ClassId) -> bool
        ensures { result ≡ is_sub self.now class above }
    {
        self.first_upward(class, |met| (above == met).then_some(()))
            .is_some()
    }

    /// Whether a tree of the class may stand where the other class is asked: the class is not abstract, and is that one or below it.
    /// False of a number that is none of this table's.
    pub fn fits(&self, class: ClassId, above: ClassId) -> bool
        ensures fits { result ≡ fits self.now class above }
        ensures within { IsTrue result → class < length self.now }
    {
        if class.index() >= self.len() {
            return false;
        }
        !self.is_abstract(class) && self.is_sub(class, above)
    }

    /// The components of the class, the inherited ones first.
    pub fn parts(&self, class: ClassId) -> &[Part]
        requires { class < length self.now }
        ensures { map part_view result.now ≡ parts self.now class }
    {
        &self.entries[class.index()].parts
    }

    /// The position of the component of that name among those of the class.
    pub fn part_named(&self, class: ClassId, name: &str) -> Option<usize>
        requires { class < length self.now }
        ensures found { result ≡ part_named self.now class name.now }
        ensures within { IfSome result (λ i. i < length (parts self.now class)) }
    {
        position_named(self.parts(class), name)
    }
}

ghost use Rattle.std.specs.Prelude.{◌≡◌, IfOk, IfErr, None, map};
ghost use Rattle.at_model.specs.Declarations.{AreNamed, classes_of, first_fault};
ghost use Rattle.at_model.specs.WellFormed.{IsHierarchy};
ghost use Rattle.at_class.specs.Grammar.{declarations_view};
ghost use Rattle.at_class.specs.Faults.{IsRefusedFor};
ghost use Rattle.at_class.specs.Fixing.{fixed_as, fixed_view};

fn table_of(
    alloc: Global,
    declarations: &[ClassDecl],
    fixed: &[Fixed],
) -> Result<ClassTable, ClassFault>
    requires { AreNamed (declarations_view declarations.now) }
    ensures faultless { IfOk result (λ t. first_fault (declarations_view declarations.now) ≡ None) }
    ensures built { IfOk result (λ t. t ≡ fixed_as (map fixed_view fixed.now) (classes_of (declarations_view declarations.now))) }
    ensures hierarchy { IfOk result IsHierarchy }
    ensures refused { IfErr result (IsRefusedFor (declarations_view declarations.now)) }
{
    let names = known_names(alloc, declarations)?;
    let classes = classes_declared(alloc, &names, declarations)?;
    refuse_classes(alloc, &classes, declarations)?;
    let classes = fix_all(alloc, classes, fixed)?;
    let entries = entries_of(alloc, &classes)?;
    let intervals = intervals_of(alloc, &classes)?;
    Ok(ClassTable {
        names,
        entries,
        intervals,
        start: ClassId::new(0),
        has_fixed: !fixed.is_empty(),
    })
}
