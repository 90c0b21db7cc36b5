//! Laws of counts that rise. Each function does nothing: its contract is the law.

ghost use Rattle.call_steps.specs.Apart.{RisingCountsAreAbove, RisingCountsAreApart, RisingCountsAreBounded};

/// Below the last value of a count, no two counts that rise are one: the later is the greater.
pub fn rising_counts_are_apart()
    ensures { RisingCountsAreApart }
{}

/// Below the last value of a count, each is above the first number: it was counted since.
pub fn rising_counts_are_above()
    ensures { RisingCountsAreAbove }
{}

/// None is above the last number, where that is below the last value of a count.
pub fn rising_counts_are_bounded()
    ensures { RisingCountsAreBounded }
{}
