//! The versions that the tag of a commit names, by its end.

use crate::VersionsName;
use std::marker::PhantomData;

/// Stands for the versions in the tag of a commit that was made, where `N` stands for those that the commit was brought with: the one that
/// is given before it, and as in doubt the one that it leaves.
#[derive(Clone, Copy)]
pub struct MadeVersions<N> {
    of: PhantomData<N>,
}

impl<N: VersionsName> VersionsName for MadeVersions<N> {
    ghost use Rattle.commit_gate.specs.Commits.{made_versions};

    ghost versions = { made_versions N.versions };
}

/// Stands for the versions in the tag of a commit that was not made.
#[derive(Clone, Copy)]
pub struct UnmadeVersions<N> {
    of: PhantomData<N>,
}

impl<N: VersionsName> VersionsName for UnmadeVersions<N> {
    ghost use Rattle.commit_gate.specs.Commits.{unmade_versions};

    ghost versions = { unmade_versions N.versions };
}
