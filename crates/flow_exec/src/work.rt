//! What a work makes of a message.
ghost use Rattle.std.specs.Prelude.{◌≡◌, [], ◌∷◌, true, Ok, IfOk, IfSome, option_map};
ghost use Rattle.flow_exec.specs.Works.{results_by, worked_by};

use flow_block::Answer;
use flow_link::BlockKind;
use flow_value::{Runs, Value};
use std::alloc::{AllocError, Global};

/// What a block of this kind makes of a message by its work: its results, or the number of its fault. Without a work it
/// is the message itself.
pub fn answer_of<W: Runs>(
    alloc: Global,
    kind: BlockKind,
    work: Option<&W>,
    message: &Value,
) -> Result<Answer, AllocError>
    ensures { IfOk result (λ answer. answer ≡
        results_by (option_map (λ work. work.now) work.entry) kind W.meaning message.now) }
{
    let Some(work) = work else {
        let mut values = Vec::with_capacity(alloc, 1)?;
        values.push_reserved(message.copy(alloc)?);
        return Ok(Answer::shaped(kind, values));
    };
    match work.run_here(alloc, message) {
        Ok(values) => Ok(Answer::shaped(kind, values)),
        Err(fault) => match fault.number() {
            Some(number) => Ok(Answer::fault(number)),
            None => Err(AllocError),
        },
    }
}

/// The one value that a block makes of a message by its work, where that is found without a list. Where this finds none,
/// [`answer_of`] tells what the block makes of it, be it one value, many or a fault.
pub fn value_of<W: Runs>(alloc: Global, work: Option<&W>, message: &Value) -> Option<Value>
    ensures { IfSome result (λ value. worked_by W.meaning (option_map (λ work. work.now) work.entry) message.now ≡
        Ok (value ∷ [])) }
{
    let Some(work) = work else {
        return match message.copy(alloc) {
            Ok(value) => Some(value),
            Err(_) => None,
        };
    };
    match work.run_one_here(alloc, message) {
        Ok(found) => found,
        Err(_) => None,
    }
}

/// Whether a block has no work, or one that gives each message itself. No says nothing of the work.
#[inline(always)]
pub fn is_identity<W: Runs>(work: Option<&W>) -> bool
    ensures { result ≡ true → (value : Value) → worked_by W.meaning (option_map (λ work. work.now) work.entry) value ≡
        Ok (value ∷ []) }
{
    match work {
        Some(work) => work.is_identity_here(),
        None => true,
    }
}
