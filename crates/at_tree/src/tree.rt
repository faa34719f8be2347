//! Syntax trees: their texts, their shapes, and how great they are. The trees themselves are those of the class table.
mod conforming;
mod counts;
mod direct;
pub(crate) mod front;
pub mod laws;
mod reading;
mod shaping;
pub mod writing;

pub use at_class::tree::{Cell, Tree};
pub use conforming::fits;
pub use counts::{depth, nodes};
pub use reading::{ReadFault, read_tree};
pub use shaping::{ShapeFault, shape};
pub use writing::write_term;
