//! Laws of the definitions, each on a function with nothing to run.
ghost use Rattle.dap_shape.specs.Laws.{BodiesAreAsTheirRowsSay, RowsNameAndGiveAsSpecified, SoundObjectsKeepTheirRows};

/// A value without a fault has each required key of its type, and at each key of the type a value without a fault.
pub fn sound_objects_keep_their_rows()
    ensures { SoundObjectsKeepTheirRows }
{}

/// The row of a command says that its success has a body where the Specification requires one, and nowhere where it
/// knows of none.
pub fn bodies_are_as_their_rows_say()
    ensures { BodiesAreAsTheirRowsSay }
{}

/// The row of a command says that its arguments name what the Specification has a number for there, but for `pause`, and
/// that its body gives just the objects that have numbers there.
pub fn rows_name_and_give_as_specified()
    ensures { RowsNameAndGiveAsSpecified }
{}
