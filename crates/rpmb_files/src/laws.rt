//! Laws of card stores. Each function does nothing: its contract is the law.

ghost use Rattle.std.specs.Prelude.{◌≡◌, ◌*◌};
ghost use Rattle.card_maps.specs.Course.{writes_of};
ghost use Rattle.card_maps.specs.Form.{most_card_bytes};
ghost use Rattle.rpmb_files.specs.Counts.{ExchangesAreCounted};
ghost use Rattle.rpmb_files.specs.FirstBlock.{FirstBlockWritesKeepMaps, OtherBlocksTellMaps};

/// Objects stand in the blocks from 1 on: a write of block 0, which a card store never makes, leaves them. So a store of files whose
/// root stands in block 0 shares the card.
pub fn first_block_writes_keep_maps()
    ensures told { OtherBlocksTellMaps }
    ensures writes { FirstBlockWritesKeepMaps }
{}

/// The exchanges that a call is said to make raise the count of a port that tells its arms by so many. The put of the greatest object
/// makes 132 by its writes.
pub fn exchanges_are_counted()
    ensures counted { ExchangesAreCounted }
    ensures greatest { 2 * writes_of most_card_bytes ≡ 132 }
{}
