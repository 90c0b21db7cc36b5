//! Laws of what is read under one reference, and under one block of the card. Each function does nothing: its contract is the law.

ghost use Rattle.freshness_laws.specs.Pictures.{PicturesAgree, PicturesHoldStores};
ghost use Rattle.freshness_laws.specs.Readings.{ReadPagesAgree, ReadTreesAgree};
ghost use Rattle.freshness_laws.specs.SeenStores.{SeenDirectoriesAgree, SeenStoresAgree};
ghost use Rattle.freshness_laws.specs.Takings.{StoresAreTaken, TakenStoresMend, TakingsMend};

/// Two trees that were read under one reference open alike where both are good, or they clash.
pub fn read_trees_agree()
    ensures { ReadTreesAgree }
{}

/// So for one block, of which alone a ciphertext may be known.
pub fn read_pages_agree()
    ensures { ReadPagesAgree }
{}

/// Two directories that were read under one block of the card have the same entries, or they clash.
pub fn seen_directories_agree()
    ensures { SeenDirectoriesAgree }
{}

/// Two stores that were read under one block of the card have the same names and sizes, and the same good parts; or they clash.
pub fn seen_stores_agree()
    ensures { SeenStoresAgree }
{}

/// What a picture mounts to is a store that its images hold.
pub fn pictures_hold_stores()
    ensures { PicturesHoldStores }
{}

/// Two pictures whose cards have one block 0 have the same names and sizes, and the same good parts; or they clash.
pub fn pictures_agree()
    ensures { PicturesAgree }
{}

/// A tamper scenario that takes for a version what was read of another tree under its reference has less damage than that, or they clash.
pub fn takings_mend()
    ensures { TakingsMend }
{}

/// Whatever a store held, there is a tamper scenario that takes it, for each set of files that are not honest.
pub fn stores_are_taken()
    ensures { StoresAreTaken }
{}

/// Under it an object of a file that is not honest has less damage than the store's, whatever its file then holds; or the two clash.
pub fn taken_stores_mend()
    ensures { TakenStoresMend }
{}
