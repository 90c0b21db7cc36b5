// The law of a card's file that a crash leaves. The function does nothing: its contract is the law.
ghost use Rattle.host_card.specs.Laws.{TornFilesKeepNoMoreThanOneWrite};

/// What a crash leaves of a card's file is, as it reads, the file of the card from before, or of that card and one more write.
pub fn torn_files_keep_no_more_than_one_write()
    ensures { TornFilesKeepNoMoreThanOneWrite }
{}
