//! Laws of the numbers of enumerators, with no code.

ghost use Rattle.enumerators.specs.Runs.{NumbersCountUp, FreedStayFreed};

/// Whatever calls come, the numbers that are given are 0, 1, 2 and so on: none is given twice.
pub fn numbers_count_up()
    ensures { NumbersCountUp }
{}

/// Whatever calls come, a number that was given and is not live is never live again.
pub fn freed_numbers_stay_freed()
    ensures { FreedStayFreed }
{}
