use crate::class_id::ClassId;
use crate::class_kind::ClassKind;

/// What `tc class show` prints of a class.
#[derive(Clone, Copy, PartialEq, Eq, Debug)]
pub struct ClassView {
    pub class: ClassId,
    pub kind: ClassKind,
}
