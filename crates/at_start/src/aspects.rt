//! The rules of aspect files.

ghost use Rattle.std.specs.Prelude.{◌≡◌, ◌++◌, ◌∷◌, List, [], map, Ok, IfOk, IfErr, OnOk};
ghost use Rattle.at_java.specs.Aliases.{Alias};
ghost use Rattle.at_jrag.specs.View.{aspect_view};
ghost use Rattle.at_model.specs.WellFormed.{AreWellFormed, IsHierarchy};
ghost use Rattle.at_rules.specs.Circular.{AreCircularLazy};
ghost use Rattle.at_evaluate.specs.Meant.{AreCircularWell};
ghost use Rattle.at_java.specs.Seen.{constant_view, contents_view};
ghost use Rattle.at_start.specs.Constants.{in_file};
ghost use Rattle.at_start.specs.FilesView.{aspects_of};
ghost use Rattle.at_start.specs.ReadGrammar.{IsDeclared};
ghost use Rattle.at_class.specs.Grammar.{grammar_view, place_view};
ghost use Rattle.at_start.specs.PlacedView.{placed_view};
ghost use Rattle.at_start.specs.AspectFiles.{Holds, AllGive, GivesRules, IsRuled, IsReadingFaultOf, IsAspectFault, IsUnread, IsRuleFault, Makes, arguments_in, java_code, jrag_code, rule_code};
ghost use Rattle.at_start.specs.Files.{IsText, max_file};
ghost use Rattle.at_start.specs.declared.language.Language.TheVariants.{Profile, JastAdd};
ghost use Rattle.at_start.specs.Starts.{aspect_bytes};

use super::fault::{StartFault, of_file};
use super::files::{MAX_FILE, Source, text_of};
use crate::code::Code;
use crate::constants::{Placed, plant};
use crate::grammar::Declared;
use crate::language::Language;
use crate::lists::aliases_in;
use crate::redeclared::read_in;
use at_class::ClassTable;
use at_java::{Alias, Constant, Contents, JavaCode, parse_java};
use at_jrag::{Aspect, Forms, JragCode, parse_jrag};
use at_kinds::{Arguments, RuleCode};
use at_rules::Rules;
use at_text::fault::{Failure, Fault};
use at_text::place::Place;
use at_typing::RuleFault;
use std::alloc::{AllocError, Global};

/// The rules of the aspect files over the classes that are declared. The files are written in this language.
///
/// # Errors
///
/// The first file that can't be read, or else the fault of their constants, or else the first fault of the rules. `Memory` for want of
/// memory.
pub fn rules_of(
    alloc: Global,
    declared: Declared,
    language: Language,
    aspects: &[Source],
) -> Result<Rules, StartFault>
    requires { IsDeclared declared }
    ensures given { IfOk result (λ r. GivesRules language (map place_view declared.marks.items) (grammar_view declared.grammar) (aspect_bytes aspects.now) r) }
    ensures well_formed { IfOk result AreWellFormed }
    ensures circular { IfOk result AreCircularWell }
    ensures refused { IfErr result (IsAspectFault language (map place_view declared.marks.items) (grammar_view declared.grammar) (aspect_bytes aspects.now)) }
{
    let names = aliases_in(alloc, language, &declared.classes)?;
    let read = read_all(alloc, language, &names, aspects)?;
    read.rules(alloc, declared, language)
}

/// What aspect files hold: the aspects of each, and the constants of all.
pub struct AllRead {
    pub aspects: Vec<Vec<Aspect>>,
    pub constants: Vec<Placed>,
}

/// One call, where each exit that lets it go would else have one for each field.
impl Drop for AllRead {
    fn drop(self) {
        let AllRead {
            aspects: _,
            constants: _,
        } = self;
    }
}

impl AllRead {
    /// The rules that the files make; or the fault of their constants, or else the first one of the rules.
    fn rules(
        self,
        alloc: Global,
        declared: Declared,
        language: Language,
    ) -> Result<Rules, StartFault>
        requires { IsDeclared declared }
        ensures { IsRuled language (map place_view declared.marks.items) (grammar_view declared.grammar)
            (map aspects_of self.aspects.items) (map placed_view self.constants.items) result }
    {
        let AllRead { aspects, constants } = self;
        let classes = plant(alloc, declared, &constants)?;
        build(alloc, language, classes, aspects)
    }

    /// What the next file holds, which has that number; or want of memory.
    fn takes(&mut self, file: usize, contents: Contents) -> Result<(), AllocError>
        ensures aspects { OnOk result (map aspects_of self.new.aspects.items ≡ map aspects_of self.old.aspects.items ++ (contents_view contents).aspects ∷ []) }
        ensures constants { OnOk result (map placed_view self.new.constants.items
            ≡ map placed_view self.old.constants.items ++ in_file file (contents_view contents).constants) }
    {
        let (aspects, constants) = contents.into_parts();
        self.aspects.push(aspects)?;
        append(file, constants, &mut self.constants)
    }
}

/// Adds the constants of the file of that number; or want of memory.
fn append(file: usize, constants: Vec<Constant>, all: &mut Vec<Placed>) -> Result<(), AllocError>
    ensures { OnOk result (map placed_view all.new.items ≡ map placed_view all.old.items ++ in_file file (map constant_view constants.items)) }
{
    for constant in constants {
        all.push(Placed { file, constant })?;
    }
    Ok(())
}

/// What the files hold, in order, where names stand for others.
fn read_all(
    alloc: Global,
    language: Language,
    names: &[Alias],
    aspects: &[Source],
) -> Result<AllRead, StartFault>
    ensures give { IfOk result (λ r. AllGive language names.now (aspect_bytes aspects.now)
        (map aspects_of r.aspects.items) (map placed_view r.constants.items)) }
    ensures refused { IfErr result (IsUnread language names.now (aspect_bytes aspects.now)) }
{
    let mut all = AllRead {
        aspects: Vec::new(alloc),
        constants: Vec::new(alloc),
    };
    for (i, source) in aspects.iter().enumerate() {
        match read(alloc, language, names, &source.bytes) {
            Ok(contents) => all.takes(i + 1, contents)?,
            Err(fault) => return Err(of_file(i + 1, fault)),
        }
    }
    Ok(all)
}

/// What a file holds.
fn read(
    alloc: Global,
    language: Language,
    names: &[Alias],
    bytes: &[u8],
) -> Result<Contents, Fault<Code>>
    ensures hold { IfOk result (λ v. Holds language names.now bytes.now (contents_view v)) }
    ensures refused { IfErr result (IsReadingFaultOf language names.now bytes.now) }
{
    let text = match text_of(bytes, MAX_FILE, Code::AspectLimit, Code::AspectSyntax) {
        Ok(text) => text,
        Err(code) => {
            return Err(Fault::Refused {
                code,
                at: Place::START,
            });
        }
    };
    match language {
        Language::Profile(forms) => read_profile(alloc, text, forms),
        Language::JastAdd => read_java(alloc, text, names),
    }
}

/// The aspects of a text of the profile, where these forms are read.
fn read_profile(alloc: Global, text: &str, forms: Forms) -> Result<Contents, Fault<Code>>
    requires { IsText max_file text.now }
    ensures hold { IfOk result (λ v. (names : List Alias) → Holds (Profile forms) names text.now (contents_view v)) }
    ensures refused { IfErr result (λ e. (names : List Alias) → IsReadingFaultOf (Profile forms) names text.now e) }
{
    match parse_jrag(alloc, text, forms) {
        Ok(aspects) => Ok(Contents {
            aspects,
            constants: Vec::new(alloc),
        }),
        Err(fault) => Err(fault.map_code(jrag_code)),
    }
}

/// What a text holds as users of JastAdd write it, where names stand for others.
fn read_java(alloc: Global, text: &str, names: &[Alias]) -> Result<Contents, Fault<Code>>
    requires { IsText max_file text.now }
    ensures hold { IfOk result (λ v. Holds JastAdd names.now text.now (contents_view v)) }
    ensures refused { IfErr result (IsReadingFaultOf JastAdd names.now text.now) }
{
    match parse_java(alloc, text, names) {
        Ok(contents) => Ok(contents),
        Err(fault) => Err(fault.map_code(java_code)),
    }
}

fn jrag_code(code: JragCode) -> Code
    ensures { result ≡ jrag_code code }
{
    match code {
        JragCode::Syntax => Code::AspectSyntax,
        JragCode::LeftOut => Code::AspectFormLeftOut,
        JragCode::Nesting => Code::AspectLimit,
    }
}

fn java_code(code: JavaCode) -> Code
    ensures { result ≡ java_code code }
{
    match code {
        JavaCode::Syntax => Code::AspectSyntax,
        JavaCode::LeftOut => Code::AspectFormLeftOut,
        JavaCode::Limit => Code::AspectLimit,
        JavaCode::NoValue => Code::Kind,
    }
}

/// The rules that aspects make in the language, or their first fault.
fn build(
    alloc: Global,
    language: Language,
    classes: ClassTable,
    aspects: Vec<Vec<Aspect>>,
) -> Result<Rules, StartFault>
    ensures classes { IfOk result (λ r. r.classes ≡ classes) }
    ensures built { IfOk result (λ r. Makes language classes (map (λ f. map aspect_view f.items) aspects.items) (Ok r)) }
    ensures lazy { IfOk result AreCircularLazy }
    ensures refused { IfErr result (IsRuleFault language classes (map (λ f. map aspect_view f.items) aspects.items)) }
{
    match built(alloc, language, classes, aspects) {
        Ok(rules) => Ok(rules),
        Err(Failure::For(breach)) => Err(StartFault::Refused {
            file: breach.file,
            code: rule_code(breach.code),
            at: Some(breach.at),
        }),
        Err(Failure::Memory) => Err(StartFault::Memory),
    }
}

/// The same, with the fault as the rules have it.
fn built(
    alloc: Global,
    language: Language,
    classes: ClassTable,
    aspects: Vec<Vec<Aspect>>,
) -> Result<Rules, RuleFault>
    ensures classes { IfOk result (λ r. r.classes ≡ classes) }
    ensures built { Makes language classes (map (λ f. map aspect_view f.items) aspects.items) result }
    ensures lazy { IfOk result AreCircularLazy }
{
    let aspects = read_in(alloc, language, &classes, aspects)?;
    at_typing::build(alloc, classes, arguments_in(language), &aspects)
}

/// What may be an argument of an attribute in the language.
fn arguments_in(language: Language) -> Arguments
    ensures { result ≡ arguments_in language }
{
    match language {
        Language::Profile(_) => Arguments::Given,
        Language::JastAdd => Arguments::Computed,
    }
}

fn rule_code(code: RuleCode) -> Code
    ensures { result ≡ rule_code code }
{
    match code {
        RuleCode::Limit => Code::AspectLimit,
        RuleCode::NameOfAccessor => Code::NameOfAccessor,
        RuleCode::AttributeTwice => Code::AttributeTwice,
        RuleCode::UnknownName => Code::UnknownName,
        RuleCode::Argument => Code::Argument,
        RuleCode::Kind => Code::Kind,
        RuleCode::EquationTwice => Code::EquationTwice,
        RuleCode::ClassWithoutEquation => Code::ClassWithoutEquation,
        RuleCode::InheritedWithoutEquation => Code::InheritedWithoutEquation,
        RuleCode::EquationWithoutAttribute => Code::EquationWithoutAttribute,
    }
}
