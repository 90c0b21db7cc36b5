//! Laws of migrations, of a store whose files move into another format. Each function does nothing: its contract is the law.

ghost use Rattle.crash_core.specs.MigrationLaws.{CallsMigrate, CopiesMigrate, DirectoriesMigrate, EntriesMigrate, ExchangesMigrate, MigrationsFollow, MigrationsKeepMaps, RestsMigrate, StagesMigrate};

/// A migration behind another is one with it: at each moment of both, whatever a crash leaves mounts as it might have at first.
pub fn migrations_follow()
    ensures { MigrationsFollow }
{}

/// What a crash leaves behind a migration mounts as something did that a crash might have left before it.
pub fn migrations_keep_maps()
    ensures { MigrationsKeepMaps }
{}

/// One call is a migration, if what a crash leaves after it mounts as it might have before.
pub fn calls_migrate()
    ensures { CallsMigrate }
{}

/// So is a sync of any file, and a call that changes nothing.
pub fn rests_migrate()
    ensures { RestsMigrate }
{}

/// So are exchanges with the card that do not write it.
pub fn exchanges_migrate()
    ensures { ExchangesMigrate }
{}

/// So are all calls of a file that no mount reads, as those that copy a tree into it.
pub fn copies_migrate()
    ensures { CopiesMigrate }
{}

/// So are the calls of the directory's file that stage a commit: the committed reference names the same entries throughout.
pub fn stages_migrate()
    ensures { StagesMigrate }
{}

/// So is the card's write that names a copy of the directory, whether it lands or is lost.
pub fn directories_migrate()
    ensures { DirectoriesMigrate }
{}

/// So is the card's write that commits an entry whose object was copied into another file, whether it lands or is lost.
pub fn entries_migrate()
    ensures { EntriesMigrate }
{}
