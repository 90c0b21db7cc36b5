//! Laws of the rule of sharing, with no code.

ghost use Rattle.sharing_rules.specs.Laws.{SharingIsSymmetric, HandlesWithoutRightsAreCompatible, WriteMetaIsExclusive};

/// It doesn't matter which of two handles is opened first.
pub fn sharing_is_symmetric()
    ensures { SharingIsSymmetric }
{}

/// Two handles of which neither has READ, WRITE or WRITE_META are compatible, whatever they share.
pub fn handles_without_rights_are_compatible()
    ensures { HandlesWithoutRightsAreCompatible }
{}

/// A handle with WRITE_META is compatible with no other.
pub fn write_meta_is_exclusive()
    ensures { WriteMetaIsExclusive }
{}
