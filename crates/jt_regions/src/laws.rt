//! The law of changes, a function that does nothing.

ghost use Rattle.jt_regions.specs.Law.{ChangesAreTold};

/// Of each kind: any map with the regions that a change leaves has as many as the change counts, and the id that a change
/// names as missing is the first of its list that the table lacks.
pub fn law_changes()
    ensures { ChangesAreTold }
{}
