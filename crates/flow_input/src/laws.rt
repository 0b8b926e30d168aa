//! Laws about inputs. Each stands on a function that does nothing: whoever calls it has the whole law.
ghost use Rattle.flow_input.specs.InputKeeps.{InputsAreParts, InputsKeep, InputsTell, PostedIsKept};

/// Each call keeps an input in order, and changes what its end of the link knows as the laws of one link have it. What its
/// caller does changes nothing that the link knows, but that to post is a move of the link.
pub fn calls_keep_inputs_in_order()
    ensures { InputsKeep }
{}

/// What the network does leaves what is posted, but for a value that was posted to the target and is turned down.
pub fn posted_lists_stay()
    ensures { PostedIsKept }
{}

/// What the network does changes nothing that the caller sees, until it is told; and what it is told is so.
pub fn inputs_tell_what_became_of_values()
    ensures { InputsTell }
{}

/// An input in order keeps what each input of a lawful run keeps, and rests where its link does.
pub fn inputs_are_parts<W>()
    ensures { InputsAreParts W }
{}
