//! Laws about the texts of terms and of paths.
ghost use Rattle.at_tree.specs.Laws.{NoneBeginsAnother, OnePathEach};

/// No term's text begins another term's: a term is known from its text, whatever stands behind.
pub fn no_text_begins_another()
    ensures { NoneBeginsAnother }
{}

/// A path is known from its text.
pub fn one_path_each()
    ensures { OnePathEach }
{}
