//! What a grammar file declares.

ghost use Rattle.std.specs.Prelude.{◌≡◌, map, IfOk, IfErr};
ghost use Rattle.at_model.specs.Declarations.{AreNamed, first_fault};
ghost use Rattle.at_start.specs.ReadGrammar.{IsDeclared};
ghost use Rattle.at_class.specs.Grammar.{grammar_view, place_view};
ghost use Rattle.at_start.specs.Files.{IsText, max_file};
ghost use Rattle.at_start.specs.GrammarFiles.{GivesGrammar, Declares, IsGrammarFault, IsReadFault, ast_code, class_code};
ghost use Rattle.at_start.specs.declared.language.Language.TheVariants.{JastAdd};

use super::files::{MAX_FILE, text_of};
use crate::code::Code;
use crate::language::Language;
use crate::slashes::{Blanked, unslashed};
use at_class::{ClassCode, ClassTable};
use at_grammar::{AstCode, Grammar, parse_ast};
use at_text::fault::Fault;
use at_text::place::Place;
use std::alloc::Global;

/// A grammar that breaks no rule, its classes, and where in it the components stand that are marked by slashes.
#[derive(Drop)]
pub struct Declared {
    pub grammar: Grammar,
    pub classes: ClassTable,
    pub marks: Vec<Place>,
}

/// The grammar of a grammar file in the language, its classes and its marks.
///
/// # Errors
///
/// The code and the place of the first fault: a file that is too long or no UTF-8, a text that is no
/// grammar, the first rule that is broken. `Memory` for want of memory.
pub fn declared_by(alloc: Global, language: Language, bytes: &[u8]) -> Result<Declared, Fault<Code>>
    ensures given { IfOk result (λ d. GivesGrammar language bytes.now (grammar_view d.grammar) (map place_view d.marks.items)) }
    ensures declared { IfOk result IsDeclared }
    ensures refused { IfErr result (IsGrammarFault language bytes.now) }
{
    let text = match text_of(bytes, MAX_FILE, Code::GrammarLimit, Code::GrammarSyntax) {
        Ok(text) => text,
        Err(code) => {
            return Err(Fault::Refused {
                code,
                at: Place::START,
            });
        }
    };
    match language {
        Language::Profile(_) => built(alloc, text, Vec::new(alloc)),
        Language::JastAdd => built_unslashed(alloc, text),
    }
}

/// What a text in JastAdd's own language declares.
fn built_unslashed(alloc: Global, text: &str) -> Result<Declared, Fault<Code>>
    requires { IsText max_file text.now }
    ensures given { IfOk result (λ d. GivesGrammar JastAdd text.now (grammar_view d.grammar) (map place_view d.marks.items)) }
    ensures declared { IfOk result IsDeclared }
    ensures refused { IfErr result (IsGrammarFault JastAdd text.now) }
{
    let Blanked { bytes, marks } = unslashed(alloc, text)?;
    match std::str::from_utf8(&bytes) {
        Ok(read) => built(alloc, read, marks),
        Err(_) => unreachable!(),
    }
}

/// What this text declares, with these marks.
fn built(alloc: Global, text: &str, marks: Vec<Place>) -> Result<Declared, Fault<Code>>
    ensures declares { IfOk result (λ d. Declares text.now (grammar_view d.grammar)) }
    ensures marks { IfOk result (λ d. d.marks ≡ marks) }
    ensures declared { IfOk result IsDeclared }
    ensures refused { IfErr result (IsReadFault text.now) }
{
    let grammar = parse(alloc, text)?;
    match ClassTable::build(alloc, &grammar) {
        Ok(classes) => Ok(Declared {
            grammar,
            classes,
            marks,
        }),
        Err(fault) => Err(fault.map_code(class_code)),
    }
}

fn parse(alloc: Global, text: &str) -> Result<Grammar, Fault<Code>>
    ensures named { IfOk result (λ g. AreNamed (grammar_view g)) }
    ensures declares { IfOk result (λ g. Declares text.now (grammar_view g)) }
    ensures refused { IfErr result (IsReadFault text.now) }
{
    match parse_ast(alloc, text) {
        Ok(grammar) => Ok(grammar),
        Err(fault) => Err(fault.map_code(ast_code)),
    }
}

fn ast_code(code: AstCode) -> Code
    ensures { result ≡ ast_code code }
{
    match code {
        AstCode::Syntax => Code::GrammarSyntax,
        AstCode::LeftOut => Code::GrammarFormLeftOut,
    }
}

fn class_code(code: ClassCode) -> Code
    ensures { result ≡ class_code code }
{
    match code {
        ClassCode::ClassTwice => Code::ClassTwice,
        ClassCode::UnknownClass => Code::UnknownClass,
        ClassCode::SuperclassCircle => Code::SuperclassCircle,
        ClassCode::ComponentTwice => Code::ComponentTwice,
        ClassCode::TokenKind => Code::TokenKind,
        ClassCode::Limit => Code::GrammarLimit,
        ClassCode::NoClass => Code::NoClass,
    }
}
