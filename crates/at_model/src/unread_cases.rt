//! Worked sessions of bytes that are no line.

ghost use Rattle.std.specs.Prelude.{◌≡◌, ◌∷◌, ◌++◌, ℕ, List, [], codes, length};
ghost use Rattle.at_model.specs.Playing.{◌⟼◌, Plays};
ghost use Rattle.at_model.specs.Samples.{calc};
ghost use Rattle.at_model.specs.SampleLines.{opened};

/// Bytes that are no line are refused, and leave all as it was: of sessions that there cannot be, of a byte
/// that is no text, of a blank at the end, and of too many bytes.
pub fn bytes_that_are_no_line()
    ensures sessions { Plays calc opened
        ("1000 version" ⟼ "? refused 1 syntax"
        ∷ "00 version" ⟼ "? refused 1 syntax"
        ∷ "999 version" ⟼ "999 ok 0"
        ∷ []) }
    ensures byte { Plays calc opened
        (record { line = codes "0 show " ++ 255 ∷ []; reply = codes "0 refused 1 syntax" }
        ∷ "0 show / " ⟼ "0 refused 1 syntax"
        ∷ "0 version" ⟼ "0 ok 0"
        ∷ []) }
    ensures long { (rest : List ℕ) → length rest ≡ 65528
        → Plays calc opened (record { line = codes "0 show /" ++ rest; reply = codes "0 refused 1 syntax" } ∷ []) }
{}
