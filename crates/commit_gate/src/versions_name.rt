//! The name of the versions in a tag.

use std::marker::Brand;

/// Stands for the versions that the tag of an event names.
pub trait VersionsName {
    ghost use Rattle.history_seats.specs.Changes.{TagVersions};

    ghost versions: { TagVersions };
}

impl VersionsName for Brand {
    ghost use Rattle.commit_gate.specs.Journals.{no_versions};

    ghost versions = { no_versions };
}
