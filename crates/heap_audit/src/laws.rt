//! What holds of all outputs and dumps. Each function here does nothing: its contract is what is proved.

ghost use Rattle.heap_audit.specs.Texts.Part.{TellsOneOutput};
ghost use Rattle.heap_audit.specs.Places.{PlacesShowAll};

/// At each place of a dump is what should be exactly where the dump represents the plain state.
pub fn places_show_what_is_represented()
    ensures { PlacesShowAll }
{}

/// No two outputs with as many mutators have one text.
pub fn texts_tell_one_output()
    ensures { TellsOneOutput }
{}
