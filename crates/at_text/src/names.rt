//! Names: what may name a class, a component, an attribute or a mark.
ghost use Rattle.std.specs.Prelude.{◌≡◌, chars, get_or, map};
ghost use Rattle.std.specs.List.{list_any};
ghost use Rattle.std.specs.Str.{bytes_eq};
ghost use Rattle.at_model.specs.Names.{starts_name, continues_name, is_reserved, is_word, is_name};

// The words that have a meaning of their own in grammars and aspects, by the letter with which they begin.
const WITH_A: [&str; 2] = ["abstract", "aspect"];

const WITH_B: [&str; 1] = ["boolean"];

const WITH_C: [&str; 1] = ["circular"];

const WITH_E: [&str; 2] = ["eq", "exists"];

const WITH_F: [&str; 2] = ["false", "first"];

const WITH_I: [&str; 3] = ["inh", "instanceof", "int"];

const WITH_L: [&str; 1] = ["lazy"];

const WITH_N: [&str; 2] = ["nta", "null"];

const WITH_R: [&str; 1] = ["return"];

const WITH_S: [&str; 2] = ["syn", "sum"];

const WITH_T: [&str; 2] = ["true", "this"];

const WITH_CAPITAL_S: [&str; 1] = ["String"];

/// Whether a name may begin with the character (Unicode Standard Annex 31, and the underscore).
pub fn starts_name(c: char) -> bool
    ensures { result ≡ starts_name c }
{
    unicode_ident::is_xid_start(c) || c == '_'
}

/// Whether a name may go on with the character (Unicode Standard Annex 31).
pub fn continues_name(c: char) -> bool
    ensures { result ≡ continues_name c }
{
    unicode_ident::is_xid_continue(c)
}

/// The first byte of the word; 0 where it has none.
fn first_byte(word: &str) -> u8
    ensures { result ≡ get_or word.now 0 0 }
{
    match word.as_bytes() {
        [first, ..] => *first,
        [] => 0,
    }
}

/// Whether the word is one of those. By itself, so that most words, which none of them is like, cost no more than a look at their
/// first byte.
#[inline(never)]
fn is_one_of(words: &[&str], word: &str) -> bool
    ensures { result ≡ list_any (λ w. bytes_eq w word.now) (map (λ w. w.now) words.now) }
{
    words.contains(&word)
}

/// Whether the word has a meaning of its own in grammars and aspects, by its first byte. By itself, so that a name that begins with
/// a capital, as most do, costs no call.
#[inline(never)]
fn is_reserved_by_first(word: &str) -> bool
    ensures { result ≡ is_reserved word.now }
{
    match first_byte(word) {
        b'a' => is_one_of(&WITH_A, word),
        b'b' => is_one_of(&WITH_B, word),
        b'c' => is_one_of(&WITH_C, word),
        b'e' => is_one_of(&WITH_E, word),
        b'f' => is_one_of(&WITH_F, word),
        b'i' => is_one_of(&WITH_I, word),
        b'l' => is_one_of(&WITH_L, word),
        b'n' => is_one_of(&WITH_N, word),
        b'r' => is_one_of(&WITH_R, word),
        b's' => is_one_of(&WITH_S, word),
        b't' => is_one_of(&WITH_T, word),
        b'S' => is_one_of(&WITH_CAPITAL_S, word),
        _ => false,
    }
}

/// Whether the word has a meaning of its own in grammars and aspects, so that it names nothing.
pub fn is_reserved(word: &str) -> bool
    ensures { result ≡ is_reserved word.now }
{
    let first = first_byte(word);
    if first.is_ascii_lowercase() || first == b'S' {
        return is_reserved_by_first(word);
    }
    false
}

/// Whether the text has the form of a name.
fn is_word(text: &str) -> bool
    ensures { result ≡ is_word (chars text.now) }
{
    let mut chars = text.chars();
    match chars.next() {
        Some(c) => starts_name(c) && chars.all(continues_name),
        None => false,
    }
}

/// Whether the text is a name: it has the form of one and is no reserved word.
pub fn is_name(text: &str) -> bool
    ensures { result ≡ is_name text.now }
{
    is_word(text) && !is_reserved(text)
}
