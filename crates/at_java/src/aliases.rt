//! Other names of accessors: a name before `()` is read as the one that it stands for.

ghost use Rattle.std.specs.Prelude.{◌≡◌, List, length, IfOk, OnOk};
ghost use Rattle.at_text.specs.Symbols.{placed};
ghost use Rattle.at_text.specs.Rows.{left};
ghost use Rattle.at_java.specs.Aliases.{Alias, opens_and_closes, resolved, resolved_row, resolved_token};
ghost use Rattle.at_java.specs.Noted.{AreNoted};

use at_text::cursor::is_sign;
use at_text::placed::Placed;
use indexmap::IndexMap;
use std::alloc::{AllocError, Global};
use std::marker::Model;

/// Another name of an accessor that takes no arguments, and the name that it stands for.
#[derive(Drop)]
pub struct Alias {
    name: String,
    meant: String,
}

impl Model for Alias {
    ghost use Rattle.std.specs.Prelude.{string_bytes};
    ghost use Rattle.at_java.specs.Aliases as spec;

    ghost Value = { spec.Alias };

    ghost view = { λ a. record { name = string_bytes a.name; meant = string_bytes a.meant } };
}

impl Alias {
    ghost use Rattle.std.specs.Prelude.{◌≡◌, string_bytes};

    /// The first name stands for the second one.
    pub fn new(name: String, meant: String) -> Alias
        ensures { result ≡ record { name = string_bytes name; meant = string_bytes meant } }
    {
        Alias { name, meant }
    }

    /// The name that stands for the other one.
    pub fn name(&self) -> &str
        ensures { result.now ≡ self.now.name }
    {
        self.name.as_str()
    }

    /// The name that it stands for.
    fn meant(&self) -> &str
        ensures { result.now ≡ self.now.meant }
    {
        self.meant.as_str()
    }
}

/// For each name what its first alias stands for. They are noted from the last to the first, which comes in the place of those behind it.
fn noted<'a>(alloc: Global, aliases: &'a [Alias]) -> Result<IndexMap<&'a str, &'a str>, AllocError>
    ensures { IfOk result (AreNoted aliases.now) }
{
    let mut names = IndexMap::new(alloc);
    let mut left = aliases.len();
    while left > 0 {
        left -= 1;
        let alias = &aliases[left];
        names.insert(alias.name(), alias.meant())?;
    }
    Ok(names)
}

/// What the name is read as.
fn resolved<'a>(names: &IndexMap<&'a str, &'a str>, name: &'a str) -> &'a str
    ensures { (aliases : List Alias) → AreNoted aliases names.now → result.now ≡ resolved aliases name.now }
{
    match names.get(name) {
        Some(meant) => *meant,
        None => name,
    }
}

/// Whether `()` is next.
fn opens_and_closes(next: &[Placed<'_>]) -> bool
    ensures { result ≡ opens_and_closes (left next.now) }
{
    match next {
        [open, close, ..] => is_sign(open, "(") && is_sign(close, ")"),
        _ => false,
    }
}

/// The token as it is read in front of these.
fn resolved_token<'a>(
    token: &Placed<'a>,
    next: &[Placed<'a>],
    names: &IndexMap<&'a str, &'a str>,
) -> Placed<'a>
    ensures { (aliases : List Alias) → AreNoted aliases names.now → placed result ≡ resolved_token aliases (placed token.now) (left next.now) }
{
    if !opens_and_closes(next) {
        return *token;
    }
    Placed {
        kind: token.kind,
        text: resolved(names, token.text),
        at: token.at,
    }
}

/// Has each name before `()` read as what is noted of it, at its place.
fn resolve_by<'a>(tokens: &mut [Placed<'a>], names: &IndexMap<&'a str, &'a str>)
    ensures len { length tokens.new ≡ length tokens.old }
    ensures meant { (aliases : List Alias) → AreNoted aliases names.now → left tokens.new ≡ resolved_row aliases (left tokens.old) }
{
    for i in 0..tokens.len() {
        let token = resolved_token(&tokens[i], &tokens[i + 1..], names);
        tokens[i] = token;
    }
}

/// Has each name before `()` read as the one that it stands for, at its place.
pub fn resolve<'a>(
    alloc: Global,
    tokens: &mut [Placed<'a>],
    aliases: &'a [Alias],
) -> Result<(), AllocError>
    ensures len { length tokens.new ≡ length tokens.old }
    ensures meant { OnOk result (left tokens.new ≡ resolved_row aliases.now (left tokens.old)) }
{
    let names = noted(alloc, aliases)?;
    resolve_by(tokens, &names);
    Ok(())
}
