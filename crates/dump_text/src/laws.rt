//! What holds of all dumps. The function here does nothing: its contract is what is proved.

ghost use Rattle.dump_text.specs.Text.{TellsOneDump};

/// No two dumps have one text.
pub fn texts_tell_one_dump()
    ensures { TellsOneDump }
{}
