//! Laws of the blocks of a card. Each function does nothing: its contract is the law.

ghost use Rattle.card_maps.specs.Steps.{RunsKeepBlockZero};
ghost use Rattle.card_maps.specs.CardWrites.{FreeCardWritesKeepMaps, MapCardWritesClear, MapCardWritesFlip};
ghost use Rattle.card_maps.specs.Course.{CoursesAreOfAMap, CoursesGoOn};
ghost use Rattle.card_maps.specs.Puts.{FreeWritesKeepMaps, MapWritesClear, MapWritesFlip};

/// A write of a block that no entry is or names leaves the map.
pub fn free_writes_keep_maps()
    ensures { FreeWritesKeepMaps }
{}

/// The write of the map block alone makes the map the one after a put.
pub fn map_writes_flip()
    ensures { MapWritesFlip }
{}

/// The write of the map block alone makes the map the one after a removal.
pub fn map_writes_clear()
    ensures { MapWritesClear }
{}

/// Writes of other blocks leave block 0.
pub fn runs_keep_block_zero()
    ensures { RunsKeepBlockZero }
{}

/// A write of the host, of a block that no entry is or names, leaves the card's map, done or refused.
pub fn free_card_writes_keep_maps()
    ensures { FreeCardWritesKeepMaps }
{}

/// A write of the map block that is done makes the card's map the one after a put.
pub fn map_card_writes_flip()
    ensures { MapCardWritesFlip }
{}

/// Or after a removal.
pub fn map_card_writes_clear()
    ensures { MapCardWritesClear }
{}

/// Calls in a row whose replies each fit what the one before left have the replies of a finite map, and go on by one call more.
pub fn course_laws()
    ensures are_of_a_map { CoursesAreOfAMap }
    ensures go_on { CoursesGoOn }
{}
