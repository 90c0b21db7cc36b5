//! Laws of mounted objects. Each function does nothing: its contract is the law.

ghost use Rattle.crash_core.specs.Laws.{LengthsAreSizes, WritesAreOfObjects};

/// A write of the bytes of an object's tree, behind the attributes, is a write of the object, bad blocks and all.
pub fn writes_are_of_objects()
    ensures { WritesAreOfObjects }
{}

/// Another length of the bytes of an object's tree is another size of the object.
pub fn lengths_are_sizes()
    ensures { LengthsAreSizes }
{}
