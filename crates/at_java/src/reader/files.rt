//! Aspects, and files of them.

ghost use Rattle.std.specs.Prelude.{◌≡◌, ◌<◌, ◌++◌, ◌∷◌, length, [], map, option_map, cond, false, IfOk, IfErr, OnOk, MatchOption};
ghost use Rattle.std.specs.List.{filter_map};
ghost use Rattle.at_text.specs.Rows.{left};
ghost use Rattle.at_jrag.specs.View.{decl_view, word_view};
ghost use Rattle.at_java.specs.Read.{got, fails, here, Fails};
ghost use Rattle.at_java.specs.declared.JavaCode.TheVariants as code;
ghost use Rattle.at_java.specs.Seen.{constant_view, declared_view, declarations_view, part_view, contents_view};
ghost use Rattle.at_java.specs.Files.{declarations, named_aspect, aspect, most_aspects, aspects, imports, contents_in, with_part};

use super::constants::Declared;
use super::{Breach, ReadFault, Reader};
use crate::JavaCode;
use crate::constants::{Constant, Contents};
use at_jrag::{Aspect, Decl, Word};
use at_text::cursor::{is_sign, is_word};
use at_text::place::Place;
use std::alloc::AllocError;

/// How many declarations an aspect may have.
const MOST_DECLARATIONS: usize = 65536;

/// How many aspects a file may have.
const MOST_ASPECTS: usize = 65536;

/// Declarations in front of a closing brace, the constants that they declare, and its place.
pub struct Declarations {
    pub decls: Vec<Decl>,
    pub constants: Vec<Constant>,
    pub end: Place,
}

/// One call, where each exit that lets it go would else have one for each field.
impl Drop for Declarations {
    fn drop(self) {
        let Declarations {
            decls: _,
            constants: _,
            end: _,
        } = self;
    }
}

impl Declarations {
    /// Takes what stands for a declaration, if anything does.
    fn takes_decl(&mut self, decl: Option<Decl>) -> Result<(), AllocError>
        ensures decls { OnOk result (map decl_view self.new.decls.items
            ≡ map decl_view self.old.decls.items ++ filter_map (λ d. d) (option_map decl_view decl ∷ [])) }
        ensures constants { OnOk result (self.new.constants ≡ self.old.constants) }
    {
        let Some(decl) = decl else {
            return Ok(());
        };
        self.decls.push(decl)?;
        Ok(())
    }

    /// Takes the constant, if there is one.
    fn takes_constant(&mut self, constant: Option<Constant>) -> Result<(), AllocError>
        ensures constants { OnOk result (map constant_view self.new.constants.items
            ≡ map constant_view self.old.constants.items ++ filter_map (λ c. c) (option_map constant_view constant ∷ [])) }
        ensures decls { OnOk result (self.new.decls ≡ self.old.decls) }
    {
        let Some(constant) = constant else {
            return Ok(());
        };
        self.constants.push(constant)?;
        Ok(())
    }

    /// Takes one more.
    fn takes(&mut self, declared: Declared) -> Result<(), AllocError>
        ensures decls { OnOk result (map decl_view self.new.decls.items
            ≡ map decl_view self.old.decls.items ++ filter_map (λ d. d.decl) (declared_view declared ∷ [])) }
        ensures constants { OnOk result (map constant_view self.new.constants.items
            ≡ map constant_view self.old.constants.items ++ filter_map (λ d. d.constant) (declared_view declared ∷ [])) }
    {
        let Declared { decl, constant } = declared;
        self.takes_decl(decl)?;
        self.takes_constant(constant)
    }

    /// The aspect of that name.
    fn into_part(self, name: Word) -> Part
        ensures { part_view result
            ≡ record { aspect = record { name = word_view name; decls = map decl_view self.decls.items }; constants = map constant_view self.constants.items } }
    {
        let Declarations {
            decls,
            constants,
            end: _,
        } = self;
        Part {
            aspect: Aspect { name, decls },
            constants,
        }
    }
}

/// An aspect, and the constants that it declares.
pub struct Part {
    pub aspect: Aspect,
    pub constants: Vec<Constant>,
}

/// One call, where each exit that lets it go would else have one for each field.
impl Drop for Part {
    fn drop(self) {
        let Part {
            aspect: _,
            constants: _,
        } = self;
    }
}

impl Part {
    /// The aspect and the constants.
    fn into_parts(self) -> (Aspect, Vec<Constant>)
        ensures { (result.0 ≡ self.aspect) × (result.1 ≡ self.constants) }
    {
        let Part { aspect, constants } = self;
        (aspect, constants)
    }
}

/// Adds the constants.
fn append(all: &mut Vec<Constant>, more: Vec<Constant>) -> Result<(), AllocError>
    ensures { OnOk result (all.new.items ≡ all.old.items ++ more.items) }
{
    for constant in more {
        all.push(constant)?;
    }
    Ok(())
}

/// Takes one more aspect, with its constants.
fn takes(all: &mut Contents, part: Part) -> Result<(), AllocError>
    ensures { OnOk result (contents_view all.new ≡ with_part (contents_view all.old) (part_view part)) }
{
    let (aspect, constants) = part.into_parts();
    all.aspects.push(aspect)?;
    append(&mut all.constants, constants)
}

impl<'a> Reader<'a> {
    /// Declarations up to the closing brace, at most 65,536.
    fn declarations(&mut self) -> Result<Declarations, ReadFault>
        ensures found { IfOk result (λ d. declarations (left self.old.cursor.rest.now) ≡ got (declarations_view d) (left self.new.cursor.rest.now)) }
        ensures fault { IfErr result (λ e. Fails e (left self.new.cursor.rest.now) (declarations (left self.old.cursor.rest.now))) }
    {
        let mut all = Declarations {
            decls: Vec::new(self.alloc),
            constants: Vec::new(self.alloc),
            end: Place::START,
        };
        let mut room = MOST_DECLARATIONS;
        loop {
            if let Some(end) = self.cursor.takes_sign("}") {
                all.end = end;
                return Ok(all);
            }
            if room == 0 {
                return Err(ReadFault::For(Breach::Here(JavaCode::Limit)));
            }
            let item = self.declaration()?;
            all.takes(item)?;
            room -= 1;
        }
    }

    /// `name "{" { declaration } "}"`
    fn named_aspect(&mut self) -> Result<Part, ReadFault>
        ensures found { IfOk result (λ p. named_aspect (left self.old.cursor.rest.now) ≡ got (part_view p) (left self.new.cursor.rest.now)) }
        ensures fault { IfErr result (λ e. Fails e (left self.new.cursor.rest.now) (named_aspect (left self.old.cursor.rest.now))) }
    {
        let name = self.name()?;
        self.expects("{")?;
        Ok(self.declarations()?.into_part(name))
    }

    /// `"aspect"`, and that.
    fn aspect(&mut self) -> Result<Part, ReadFault>
        ensures found { IfOk result (λ p. aspect (left self.old.cursor.rest.now) ≡ got (part_view p) (left self.new.cursor.rest.now)) }
        ensures fault { IfErr result (λ e. Fails e (left self.new.cursor.rest.now) (aspect (left self.old.cursor.rest.now))) }
    {
        if self.cursor.takes_word("aspect").is_none() {
            return Err(ReadFault::For(Breach::Here(self.other_code())));
        }
        self.named_aspect()
    }

    /// Aspects up to the end, at most 65,536.
    fn aspects(&mut self) -> Result<Contents, ReadFault>
        ensures found { IfOk result (λ v. aspects most_aspects (left self.old.cursor.rest.now)
            ≡ got (contents_view v) (left self.new.cursor.rest.now)) }
        ensures fault { IfErr result (λ e. Fails e (left self.new.cursor.rest.now) (aspects most_aspects (left self.old.cursor.rest.now))) }
        ensures end { IfOk result (λ v. left self.new.cursor.rest.now ≡ []) }
    {
        let mut all = Contents {
            aspects: Vec::new(self.alloc),
            constants: Vec::new(self.alloc),
        };
        let mut room = MOST_ASPECTS;
        loop {
            if self.cursor.count_left() == 0 {
                return Ok(all);
            }
            if room == 0 {
                return Err(ReadFault::For(Breach::Here(JavaCode::Limit)));
            }
            let part = self.aspect()?;
            takes(&mut all, part)?;
            room -= 1;
        }
    }

    /// Steps over a token of an import, here or within one: whether the next one is within it, too.
    fn takes_import(&mut self, within: bool) -> Option<bool>
        ensures { MatchOption result
            (imports within (left self.old.cursor.rest.now)
            ≡ cond within (fails (here code.Syntax (left self.new.cursor.rest.now))) (got tt (left self.new.cursor.rest.now)))
            (λ w. (imports within (left self.old.cursor.rest.now) ≡ imports w (left self.new.cursor.rest.now))
            × (length (left self.new.cursor.rest.now) < length (left self.old.cursor.rest.now))) }
    {
        let [token, rest @ ..] = self.cursor.rest else {
            return None;
        };
        if within {
            self.cursor.rest = rest;
            return Some(!is_sign(token, ";"));
        }
        if is_word(token, "import") {
            self.cursor.rest = rest;
            return Some(true);
        }
        None
    }

    /// Steps over the imports, each up to its `;`.
    fn imports(&mut self) -> Result<(), ReadFault>
        ensures found { IfOk result (λ u. imports false (left self.old.cursor.rest.now) ≡ got tt (left self.new.cursor.rest.now)) }
        ensures fault { IfErr result (λ e. Fails e (left self.new.cursor.rest.now) (imports false (left self.old.cursor.rest.now))) }
    {
        let mut within = false;
        while let Some(next) = self.takes_import(within) {
            within = next;
        }
        if within {
            return Err(ReadFault::For(Breach::Here(JavaCode::Syntax)));
        }
        Ok(())
    }

    /// What a file holds.
    pub fn file(&mut self) -> Result<Contents, ReadFault>
        ensures found { IfOk result (λ v. contents_in (left self.old.cursor.rest.now) ≡ got (contents_view v) (left self.new.cursor.rest.now)) }
        ensures fault { IfErr result (λ e. Fails e (left self.new.cursor.rest.now) (contents_in (left self.old.cursor.rest.now))) }
        ensures end { IfOk result (λ v. left self.new.cursor.rest.now ≡ []) }
    {
        self.imports()?;
        self.aspects()
    }
}
