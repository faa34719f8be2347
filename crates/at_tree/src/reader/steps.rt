//! The steps of the reader of terms, each by one character.
ghost use Rattle.std.specs.Prelude.{◌≡◌, ◌∷◌, ◌++◌, Some, None, false, ◌-◌, IsTrue, map, string_bytes};
ghost use Rattle.at_tree.specs.Partial.{at, Digits, is_digit, complete, in_cell, in_item, first_in, first, in_digits, in_dash, in_text, in_escape, unescaped, step, limit, integer};
ghost use Rattle.at_tree.specs.View.{term_view, cell_view};
ghost use Rattle.at_tree.specs.Seen.{Gives, partial_view, level_view, levels_view, place_view};

use super::words::{after_word, in_word};
use super::{Level, Number, Partial, Place};
use crate::fault::{Misfit, Untaken};
use crate::term::{Term, TermCell};
use at_class::token::TokVal;
use at_text::names::starts_name;
use std::alloc::Global;

/// The reading goes on inside this level.
pub(super) fn inside(levels: Vec<Level>, level: Level, place: Place) -> Result<Partial, Untaken>
    ensures { Gives result (Some (at (level_view level ∷ levels_view levels.items) (place_view place))) }
{
    let mut partial = Partial { levels, place };
    partial.levels.push(level)?;
    Ok(partial)
}

/// A term is whole.
fn complete(levels: Vec<Level>, term: Term) -> Partial
    ensures { partial_view result ≡ complete (levels_view levels.items) (term_view term) }
{
    let in_list = match levels.last() {
        None => {
            return Partial {
                levels,
                place: Place::Done(term),
            };
        }
        Some(level) => level.items.is_some(),
    };
    let place = if in_list {
        Place::Item(term)
    } else {
        Place::Whole(TermCell::One(term))
    };
    Partial { levels, place }
}

/// The character behind a cell.
pub(super) fn in_cell(mut levels: Vec<Level>, cell: TermCell, c: char) -> Result<Partial, Untaken>
    ensures { Gives result (in_cell (levels_view levels.items) (cell_view cell) c) }
{
    let Some(mut level) = levels.pop() else {
        return Err(Untaken::For(Misfit::Form));
    };
    match c {
        ',' => {
            level.cells.push(cell)?;
            inside(levels, level, Place::Start)
        }
        ')' => {
            level.cells.push(cell)?;
            Ok(complete(levels, level.closed()))
        }
        _ => Err(Untaken::For(Misfit::Form)),
    }
}

/// The character behind a list's item.
fn in_item(mut levels: Vec<Level>, term: Term, c: char) -> Result<Partial, Untaken>
    ensures { Gives result (in_item (levels_view levels.items) (term_view term) c) }
{
    let Some(mut level) = levels.pop() else {
        return Err(Untaken::For(Misfit::Form));
    };
    let Some(mut items) = level.items.take() else {
        return Err(Untaken::For(Misfit::Form));
    };
    match c {
        ',' => {
            items.push(term)?;
            level.items = Some(items);
            inside(levels, level, Place::Start)
        }
        ']' => {
            items.push(term)?;
            inside(levels, level, Place::Whole(TermCell::Many(items)))
        }
        _ => Err(Untaken::For(Misfit::Form)),
    }
}

/// The bracket that closes an empty list.
fn first_in_list(
    levels: Vec<Level>,
    level: Level,
    items: Vec<Term>,
    c: char,
) -> Result<Partial, Untaken>
    requires { level.items ≡ None }
    ensures { Gives result (first_in (level_view level) (levels_view levels.items) (Some (map term_view items.items)) c) }
{
    if c == ']' && items.is_empty() {
        inside(levels, level, Place::Whole(TermCell::Many(items)))
    } else {
        Err(Untaken::For(Misfit::Form))
    }
}

/// The first digit of a number.
fn first_digit(levels: Vec<Level>, level: Level, c: char) -> Result<Partial, Untaken>
    requires { IsTrue (is_digit c) }
    ensures { Gives result (Some (at (level_view level ∷ levels_view levels.items) (Digits false (c - 48)))) }
{
    let value = c as u32 - '0' as u32;
    let number = Number {
        minus: false,
        value,
    };
    inside(levels, level, Place::Digits(number))
}

/// The first character of a cell that begins with no letter, or the parenthesis that closes none.
fn first_in_term(
    alloc: Global,
    levels: Vec<Level>,
    mut level: Level,
    c: char,
) -> Result<Partial, Untaken>
    requires { level.items ≡ None }
    ensures { Gives result (first_in (level_view level) (levels_view levels.items) None c) }
{
    match c {
        '-' => inside(levels, level, Place::Dash),
        '"' => inside(levels, level, Place::InText(String::new(alloc))),
        '0'..='9' => first_digit(levels, level, c),
        '[' => {
            level.items = Some(Vec::new(alloc));
            inside(levels, level, Place::Start)
        }
        ')' if level.cells.is_empty() => Ok(complete(levels, level.closed())),
        _ => Err(Untaken::For(Misfit::Form)),
    }
}

/// The character behind a bracket, a comma or nothing.
fn first(alloc: Global, mut levels: Vec<Level>, c: char) -> Result<Partial, Untaken>
    ensures { Gives result (first (levels_view levels.items) c) }
{
    if starts_name(c) {
        return in_word(levels, String::new(alloc), c);
    }
    let Some(mut level) = levels.pop() else {
        return Err(Untaken::For(Misfit::Form));
    };
    match level.items.take() {
        Some(items) => first_in_list(levels, level, items, c),
        None => first_in_term(alloc, levels, level, c),
    }
}

/// The greatest number behind a minus sign, or behind none.
fn limit(minus: bool) -> u64
    ensures { result ≡ limit minus }
{
    if minus { 1 << 31 } else { (1 << 31) - 1 }
}

impl Number {
    /// The number itself.
    fn get(self) -> i32
        ensures { result ≡ integer self.minus self.value }
    {
        if self.minus {
            -1 - (self.value - 1) as i32
        } else {
            self.value as i32
        }
    }
}

/// The character behind digits.
fn in_digits(levels: Vec<Level>, number: Number, c: char) -> Result<Partial, Untaken>
    ensures { Gives result (in_digits (levels_view levels.items) number.minus number.value c) }
{
    if c.is_ascii_digit() && number.value > 0 {
        let value = u64::from(number.value) * 10 + (c as u64 - '0' as u64);
        if value <= limit(number.minus) {
            let minus = number.minus;
            let value = value as u32;
            return Ok(Partial {
                levels,
                place: Place::Digits(Number { minus, value }),
            });
        }
    }
    in_cell(levels, TermCell::Holds(TokVal::Int(number.get())), c)
}

/// The character behind a dash.
fn in_dash(levels: Vec<Level>, c: char) -> Result<Partial, Untaken>
    ensures { Gives result (in_dash (levels_view levels.items) c) }
{
    match c {
        '1'..='9' => {
            let value = c as u32 - '0' as u32;
            Ok(Partial {
                levels,
                place: Place::Digits(Number { minus: true, value }),
            })
        }
        _ => in_cell(levels, TermCell::Empty, c),
    }
}

/// A character of a quoted text.
fn in_text(levels: Vec<Level>, mut text: String, c: char) -> Result<Partial, Untaken>
    ensures { Gives result (in_text (levels_view levels.items) (string_bytes text) c) }
{
    let place = match c {
        '"' => Place::Whole(TermCell::Holds(TokVal::Str(text))),
        '\\' => Place::Escape(text),
        '\n' | '\t' => return Err(Untaken::For(Misfit::Form)),
        _ => {
            text.push(c)?;
            Place::InText(text)
        }
    };
    Ok(Partial { levels, place })
}

/// What a character behind a backslash stands for.
fn unescaped(c: char) -> Option<char>
    ensures { result ≡ unescaped c }
{
    match c {
        '"' | '\\' => Some(c),
        'n' => Some('\n'),
        't' => Some('\t'),
        _ => None,
    }
}

/// The character behind a backslash.
fn in_escape(levels: Vec<Level>, mut text: String, c: char) -> Result<Partial, Untaken>
    ensures { Gives result (in_escape (levels_view levels.items) (string_bytes text) c) }
{
    let Some(plain) = unescaped(c) else {
        return Err(Untaken::For(Misfit::Form));
    };
    text.push(plain)?;
    Ok(Partial {
        levels,
        place: Place::InText(text),
    })
}

impl Partial {
    /// One more character.
    pub(super) fn step(self, alloc: Global, c: char) -> Result<Partial, Untaken>
        ensures { Gives result (step (partial_view self) c) }
    {
        let Partial { levels, place } = self;
        match place {
            Place::Start => first(alloc, levels, c),
            Place::InWord(word) => after_word(alloc, levels, word, c),
            Place::Dash => in_dash(levels, c),
            Place::Digits(number) => in_digits(levels, number, c),
            Place::InText(text) => in_text(levels, text, c),
            Place::Escape(text) => in_escape(levels, text, c),
            Place::Whole(cell) => in_cell(levels, cell, c),
            Place::Item(term) => in_item(levels, term, c),
            Place::Done(_) => Err(Untaken::For(Misfit::Form)),
        }
    }
}
