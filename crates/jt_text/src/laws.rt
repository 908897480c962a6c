//! Laws of texts. Each is a function that does nothing, whose contract is the law.

ghost use Rattle.jt_text.specs.Times.{TimesAreMoments};

/// The test of a time, by which it is printed as a date and a time of day, holds exactly where the time names a moment.
pub fn law_of_times()
    ensures { TimesAreMoments }
{}
