//! Whether a grammar is named by names.
ghost use Rattle.std.specs.Prelude.{◌≡◌, ◌↔◌, All, IsTrue, map, true};
ghost use Rattle.at_model.specs.Declarations.{AreNamed, IsDeclarationNamed, PartDeclaration};
ghost use Rattle.at_model.specs.Names.{is_name};
ghost use Rattle.at_class.specs.Grammar.{declaration_view, declarations_view, grammar_view, part_declaration_view};

use at_grammar::{ClassDecl, Grammar, PartDecl};
use at_text::names::is_name;

fn are_parts_named(parts: &[PartDecl]) -> bool
    ensures { IsTrue result ↔ All (λ (p : PartDeclaration). is_name p.name ≡ true) (map part_declaration_view parts.now) }
{
    for part in parts {
        if !is_name(part.name.as_str()) {
            return false;
        }
    }
    true
}

fn is_named(declaration: &ClassDecl) -> bool
    ensures { IsTrue result ↔ IsDeclarationNamed (declaration_view declaration.now) }
{
    if !is_name(declaration.name.as_str()) {
        return false;
    }
    are_parts_named(&declaration.parts)
}

fn are_all_named(declarations: &[ClassDecl]) -> bool
    ensures { IsTrue result ↔ AreNamed (declarations_view declarations.now) }
{
    for declaration in declarations {
        if !is_named(declaration) {
            return false;
        }
    }
    true
}

/// Whether each class and each component is named by a name, as in every grammar that was read: what a class table asks.
pub fn are_named(grammar: &Grammar) -> bool
    ensures { IsTrue result ↔ AreNamed (grammar_view grammar.now) }
{
    are_all_named(&grammar.classes)
}
