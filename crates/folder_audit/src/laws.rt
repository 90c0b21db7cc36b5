//! Laws of audits. The function does nothing: its contract is the law.

ghost use Rattle.folder_audit.specs.Laws.{AuditedObjectsHold};

/// What the certificate of a line says holds in every picture with that block of the card that mounts, or they clash.
pub fn audited_objects_hold()
    ensures { AuditedObjectsHold }
{}
