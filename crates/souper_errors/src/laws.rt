//! A theorem about the definition of a place.
ghost use Rattle.souper_errors.specs.Places.{OnePlace};

/// An offset in a source has one line, one column and one line text.
pub fn law_of_places()
    ensures { OnePlace }
{}
