//! The laws of locations, each as the contract of a function.

ghost use Rattle.c_location.specs.Laws.{LocationsRise, OneAtEachByte, EachNamesOnePlace, NothingElsewhere};

/// In a program whose spans are in text order, locations rise strictly in their first bytes.
pub fn locations_rise()
    ensures { LocationsRise }
{}

/// In a program whose spans are in text order, two locations that begin at the same byte are the same location.
pub fn one_location_at_each_byte()
    ensures { OneAtEachByte }
{}

/// In a program whose spans are in text order, each location names one place: what stands there is found, and a
/// change there changes that part and nothing else.
pub fn each_names_one_place()
    ensures { EachNamesOnePlace }
{}

/// A change at what is no location of the program changes nothing.
pub fn nothing_elsewhere()
    ensures { NothingElsewhere }
{}
