//! The files of a server, and the texts that they hold.

ghost use Rattle.std.specs.Prelude.{◌≡◌, MatchResult};
ghost use Rattle.at_start.specs.Files.{IsTextOf, IsNoText, tree_bytes};

use crate::code::Code;
use crate::language::Language;

/// How many bytes a file may have, but for that of a large tree.
pub const MAX_FILE: usize = 4_194_304;

/// How many bytes the file of a tree may have that may have so many nodes: as many as any file, or 64 for each of them.
pub fn tree_bytes(nodes: u32) -> usize
    ensures { result ≡ tree_bytes nodes }
{
    let bytes = 64 * nodes as usize;
    if bytes < MAX_FILE { MAX_FILE } else { bytes }
}

/// A file: the name under which it was given, and its bytes.
#[derive(Drop)]
pub struct Source {
    pub name: String,
    pub bytes: Vec<u8>,
}

/// The files of a server.
#[derive(Drop)]
pub struct Files {
    pub grammar: Source,
    pub tree: Source,
    pub aspects: Vec<Source>,
    /// How many nodes the tree may have.
    pub nodes: u32,
    /// The language that the aspects are written in.
    pub language: Language,
    /// Whether folds over lists may be searches: what is looked up by a text is then found by key.
    pub index: bool,
}

/// The text of a file that may have so many bytes, or the code for a file that is too long, or for one that is no UTF-8.
pub fn text_of(bytes: &[u8], most: usize, limit: Code, syntax: Code) -> Result<&str, Code>
    ensures { MatchResult result (λ t. IsTextOf most bytes.now t.now) (IsNoText most bytes.now limit syntax) }
{
    if bytes.len() > most {
        return Err(limit);
    }
    match std::str::from_utf8(bytes) {
        Ok(text) => Ok(text),
        Err(_) => Err(syntax),
    }
}
