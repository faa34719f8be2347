//! The components of classes by whatever number.

ghost use Rattle.std.specs.Prelude.{◌≡◌, map};
ghost use Rattle.at_class.specs.View.{part_view};
ghost use Rattle.at_model.specs.Classes.{parts};

use at_class::{ClassId, ClassTable, Part};

/// The components of the class, none where it isn't there.
pub fn parts_of(classes: &ClassTable, class: ClassId) -> &[Part]
    ensures { map part_view result.now ≡ parts classes.now class }
{
    if class.index() < classes.len() {
        classes.parts(class)
    } else {
        &[]
    }
}
