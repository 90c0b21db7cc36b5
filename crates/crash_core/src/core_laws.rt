//! Laws of the core machine. Each function does nothing: its contract is the law.

ghost use Rattle.crash_core.specs.Opening.{OpeningsAreStarts};
ghost use Rattle.crash_core.specs.Theorem.{EveryPictureMounts, HonestPicturesMount};

/// Whatever the steps of the core machine, in whatever order they come: every picture that a crash may then leave mounts to the map
/// that the history leaves, or to that map with the one commit that is sealed and not yet in the history. So it holds each commit of
/// the history, in order, none in part. Nothing is said of objects in files that are not honest, nor where the directory's file is not.
///
/// `Root` stands for a committed version of a file in the history's tags.
pub fn every_picture_mounts<Root>()
    ensures { EveryPictureMounts Root }
{}

/// Where every file is honest, the picture mounts to that map itself.
pub fn honest_pictures_mount<Root>()
    ensures { HonestPicturesMount Root }
{}

/// The core machine may begin with every store that is mounted, and whose named files were synced.
pub fn openings_are_starts<Root>()
    ensures { OpeningsAreStarts Root }
{}
