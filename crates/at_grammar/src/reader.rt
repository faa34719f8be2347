//! The reader of tokens: a method for each form of the grammar.

ghost use Rattle.std.specs.Prelude.{◌≡◌, ◌∷◌, length, [], IfOk, OnOk, MatchOption, MatchBool, Some, map, true, false};
ghost use Rattle.std.specs.String.{string_bytes};
ghost use Rattle.at_text.specs.Reading.{first};
ghost use Rattle.at_text.specs.Symbols.{sign, word, is_sign, symbol, placed, words_keep};
ghost use Rattle.at_grammar.specs.Grammar.{is_token_kind};
ghost use Rattle.at_grammar.specs.Table.{is_kind_next};
ghost use Rattle.at_grammar.specs.Meaning.{kind_or, bytes_of, text_of, seen_part, seen_class, child_means, token_means, part_means, body_means, class_means};
ghost use Rattle.at_grammar.specs.Forms.{left, Parses, name, kind_name, mark, kind, typed, child, optional, close, token_kind, token, part, parts, body, declaration, file};
ghost use Rattle.at_grammar.specs.declared.syntax.Shape.TheVariants as shape;

use crate::AstCode;
use crate::syntax::{ClassDecl, PartDecl, Shape};
use at_text::cursor::Cursor;
use at_text::fault::Failure;
use at_text::names::is_name;
use at_text::place::Place;
use at_text::placed::Placed;
use at_text::token::TokenKind;
use std::alloc::{AllocError, Global};

/// Why nothing was read: what the next token, or the end, breaks, or want of memory.
pub type ReadFault = Failure<AstCode>;

/// A name with its line and column.
#[derive(Debug, Drop)]
struct Name {
    text: String,
    at: Place,
}

/// Whether the word may stand as a token's kind.
fn is_token_kind(word: &str) -> bool
    ensures { result ≡ is_token_kind word.now }
{
    is_name(word) || word == "String" || word == "int" || word == "boolean"
}

/// The kind that is written, or else the other.
fn kind_or(alloc: Global, written: Option<String>, other: &str) -> Result<String, AllocError>
    ensures { IfOk result (λ s. string_bytes s ≡ kind_or other.now (bytes_of written)) }
{
    match written {
        Some(kind) => Ok(kind),
        None => String::from_str(alloc, other),
    }
}

/// Whether the token may stand as a token's kind.
fn is_kind_token(token: &Placed<'_>) -> bool
    ensures value { result ≡ is_kind_next (Some (symbol words_keep (placed token.now))) }
    ensures same { result ≡ true → symbol words_keep (placed token.now) ≡ word token.now.text.now token.now.at }
{
    token.kind == TokenKind::Word && is_token_kind(token.text)
}

/// A reader of tokens. It stands before what is left.
#[derive(Drop)]
pub struct Reader<'a> {
    alloc: Global,
    cursor: Cursor<'a>,
}

impl<'a> Reader<'a> {
    /// A reader before the first token.
    pub fn new(alloc: Global, tokens: &'a [Placed<'a>]) -> Reader<'a>
        ensures { result.cursor.rest.now ≡ tokens.now }
    {
        Reader {
            alloc,
            cursor: Cursor::new(tokens),
        }
    }

    /// How many tokens are left.
    pub fn count_left(&self) -> usize
        ensures { result ≡ length self.now.cursor.rest.now }
    {
        self.cursor.count_left()
    }

    /// Whether the sign is next.
    fn is_before(&self, text: &str) -> bool
        ensures value { result ≡ is_sign text.now (first (left self.now.cursor.rest.now)) }
        ensures same { result ≡ true → first (left self.now.cursor.rest.now) ≡ Some (sign text.now) }
    {
        self.cursor.is_before_sign(text)
    }

    /// Steps over the sign, if it is next.
    fn takes(&mut self, text: &str) -> bool
        ensures { MatchBool result
            (left self.old.cursor.rest.now ≡ sign text.now ∷ left self.new.cursor.rest.now)
            ((self.new.cursor.rest.now ≡ self.old.cursor.rest.now) × (is_sign text.now (first (left self.old.cursor.rest.now)) ≡ false)) }
    {
        self.cursor.takes_sign(text).is_some()
    }

    /// Steps over a token's kind, if one is next.
    fn takes_kind(&mut self) -> Option<&'a Placed<'a>>
        ensures { MatchOption result
            ((self.new.cursor.rest.now ≡ self.old.cursor.rest.now) × (is_kind_next (first (left self.old.cursor.rest.now)) ≡ false))
            (λ t. (left self.old.cursor.rest.now ≡ word t.now.text.now t.now.at ∷ left self.new.cursor.rest.now) × (is_token_kind t.now.text.now ≡ true)) }
    {
        match self.cursor.rest {
            [token, rest @ ..] if is_kind_token(token) => {
                self.cursor.rest = rest;
                Some(token)
            }
            _ => None,
        }
    }

    /// The sign.
    fn expects(&mut self, text: &str) -> Result<(), ReadFault>
        ensures { Parses (mark text.now) (λ _ _. Unit {0}) result self.old.cursor.rest.now self.new.cursor.rest.now }
    {
        if self.takes(text) {
            Ok(())
        } else {
            Err(ReadFault::For(AstCode::Syntax))
        }
    }

    /// `name`
    fn name(&mut self) -> Result<Name, ReadFault>
        ensures { Parses name (λ w n. (string_bytes n.text ≡ w.text) × (n.at ≡ w.at)) result self.old.cursor.rest.now self.new.cursor.rest.now }
    {
        match self.cursor.takes_name() {
            Some(token) => Ok(Name {
                text: String::from_str(self.alloc, token.text)?,
                at: token.at,
            }),
            None => Err(ReadFault::For(AstCode::Syntax)),
        }
    }

    /// `[":" name]`
    fn kind(&mut self) -> Result<Option<String>, ReadFault>
        ensures { Parses kind (λ k found. bytes_of found ≡ text_of k) result self.old.cursor.rest.now self.new.cursor.rest.now }
    {
        if self.takes(":") {
            Ok(Some(self.name()?.text))
        } else {
            Ok(None)
        }
    }

    /// `name [":" name]`, a component of this shape.
    fn typed(&mut self, shape: Shape) -> Result<PartDecl, ReadFault>
        ensures { Parses typed (λ t p. seen_part p ≡ child_means shape t) result self.old.cursor.rest.now self.new.cursor.rest.now }
    {
        let name = self.name()?;
        let written = self.kind()?;
        let kind = kind_or(self.alloc, written, name.text.as_str())?;
        Ok(PartDecl {
            name: name.text,
            kind,
            shape,
            at: name.at,
        })
    }

    /// `name [":" name] ["*"]`
    fn child(&mut self) -> Result<PartDecl, ReadFault>
        ensures { Parses child (λ t p. seen_part p ≡ part_means t) result self.old.cursor.rest.now self.new.cursor.rest.now }
    {
        let mut part = self.typed(Shape::One)?;
        if self.takes("*") {
            part.shape = Shape::Many;
        }
        Ok(part)
    }

    /// An optional component, behind its `[`: `name [":" name] "]"`
    fn optional(&mut self) -> Result<PartDecl, ReadFault>
        ensures { Parses optional (λ t p. seen_part p ≡ child_means shape.Maybe t) result self.old.cursor.rest.now self.new.cursor.rest.now }
    {
        let part = self.typed(Shape::Maybe)?;
        self.expects("]")?;
        Ok(part)
    }

    /// A word that may be a token's kind.
    fn kind_name(&mut self) -> Result<String, ReadFault>
        ensures { Parses kind_name (λ w s. string_bytes s ≡ w.text) result self.old.cursor.rest.now self.new.cursor.rest.now }
    {
        match self.takes_kind() {
            Some(token) => Ok(String::from_str(self.alloc, token.text)?),
            None => Err(ReadFault::For(AstCode::Syntax)),
        }
    }

    /// `">"`, where a kind of more than one name, or with arguments, is left out.
    fn close(&mut self) -> Result<(), ReadFault>
        ensures { Parses close (λ _ _. Unit {0}) result self.old.cursor.rest.now self.new.cursor.rest.now }
    {
        if self.is_before(".") || self.is_before("<") {
            return Err(ReadFault::For(AstCode::LeftOut));
        }
        self.expects(">")
    }

    /// A token behind its name: `[":" kind] ">"`
    fn token_kind(&mut self) -> Result<Option<String>, ReadFault>
        ensures { Parses token_kind (λ k found. bytes_of found ≡ text_of k) result self.old.cursor.rest.now self.new.cursor.rest.now }
    {
        if self.takes(">") {
            return Ok(None);
        }
        self.expects(":")?;
        let kind = self.kind_name()?;
        self.close()?;
        Ok(Some(kind))
    }

    /// A token behind its `<`: `name [":" kind] ">"`
    fn token(&mut self) -> Result<PartDecl, ReadFault>
        ensures { Parses token (λ t p. seen_part p ≡ token_means t) result self.old.cursor.rest.now self.new.cursor.rest.now }
    {
        let name = self.name()?;
        let written = self.token_kind()?;
        let kind = kind_or(self.alloc, written, "String")?;
        Ok(PartDecl {
            name: name.text,
            kind,
            shape: Shape::Tok,
            at: name.at,
        })
    }

    /// A component.
    fn part(&mut self) -> Result<PartDecl, ReadFault>
        ensures { Parses part (λ t p. seen_part p ≡ part_means t) result self.old.cursor.rest.now self.new.cursor.rest.now }
    {
        if self.takes("<") {
            self.token()
        } else if self.takes("[") {
            self.optional()
        } else {
            self.child()
        }
    }

    /// `{ part } ";"`, where a component that begins with `/` is left out.
    fn parts(&mut self) -> Result<Vec<PartDecl>, ReadFault>
        ensures { Parses parts (λ ps v. map seen_part v.items ≡ map part_means ps) result self.old.cursor.rest.now self.new.cursor.rest.now }
    {
        let mut parts = Vec::new(self.alloc);
        loop {
            if self.takes(";") {
                return Ok(parts);
            }
            if self.is_before("/") {
                return Err(ReadFault::For(AstCode::LeftOut));
            }
            let part = self.part()?;
            parts.push(part)?;
        }
    }

    /// `["::=" { part }] ";"`
    fn body(&mut self) -> Result<Vec<PartDecl>, ReadFault>
        ensures { Parses body (λ b v. map seen_part v.items ≡ body_means b) result self.old.cursor.rest.now self.new.cursor.rest.now }
    {
        if self.takes(";") {
            return Ok(Vec::new(self.alloc));
        }
        self.expects("::=")?;
        self.parts()
    }

    /// `["abstract"] name [":" name] ["::=" { part }] ";"`
    fn declaration(&mut self) -> Result<ClassDecl, ReadFault>
        ensures { Parses declaration (λ d c. seen_class c ≡ class_means d) result self.old.cursor.rest.now self.new.cursor.rest.now }
    {
        let is_abstract = self.cursor.takes_word("abstract").is_some();
        let name = self.name()?;
        let parent = self.kind()?;
        let parts = self.body()?;
        Ok(ClassDecl {
            name: name.text,
            is_abstract,
            parent,
            parts,
            at: name.at,
        })
    }

    /// `{ decl }`, up to the end.
    pub fn file(&mut self) -> Result<Vec<ClassDecl>, ReadFault>
        ensures read { Parses file (λ ds v. map seen_class v.items ≡ map class_means ds) result self.old.cursor.rest.now self.new.cursor.rest.now }
        ensures end { OnOk result (left self.new.cursor.rest.now ≡ []) }
    {
        let mut classes = Vec::new(self.alloc);
        while !self.cursor.rest.is_empty() {
            let class = self.declaration()?;
            classes.push(class)?;
        }
        Ok(classes)
    }
}
