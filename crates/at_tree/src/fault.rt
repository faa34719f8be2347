//! Why a text is not read, and why an attribute has no value.
ghost use Rattle.std.specs.Prelude.{◌≡◌};
ghost use Rattle.at_model.specs.Replies.{fault_text};
ghost use Rattle.at_tree.specs.Faults.{fault_view};

use at_text::fault::Failure;

/// Why a text is no term's or no path's.
#[derive(Drop)]
pub enum TermFault {
    /// The offset in bytes of the first character with which no such text goes on, or the end of
    /// the text where more was needed.
    Syntax { at: usize },
    /// Memory ran out.
    Memory,
}

/// What stands there is of another form than what is wanted.
#[derive(Clone, Copy)]
pub(crate) enum Misfit {
    Form,
}

/// Why nothing was taken, neither a character nor the front of a text.
pub(crate) type Untaken = Failure<Misfit>;

/// Why an attribute has no value.
#[derive(Clone, Copy, PartialEq, Eq, Debug)]
pub enum FaultKind {
    /// A node was asked for something, and there is none.
    Null,
    /// A list has no element of that index.
    Index,
    /// An optional child isn't there.
    Absent,
    /// A divisor is zero.
    Zero,
    /// A node is of another class than the cast's.
    Cast,
    /// A text is too long.
    Long,
}

impl FaultKind {
    /// The word for it.
    pub fn text(self) -> &'static str
        ensures { result.now ≡ fault_text (fault_view self) }
    {
        match self {
            FaultKind::Null => "null",
            FaultKind::Index => "index",
            FaultKind::Absent => "absent",
            FaultKind::Zero => "zero",
            FaultKind::Cast => "cast",
            FaultKind::Long => "long",
        }
    }
}
