//! One message to work on.
ghost use Rattle.std.specs.Prelude.{◌≡◌, option_map};
ghost use Rattle.std.specs.Arc.{arc_value};
ghost use Rattle.flow_exec.specs.Jobs.{work_in, kind_in, message_in, ticket_in};

use flow_link::BlockKind;
use flow_value::Value;
use std::alloc::Global;
use std::sync::Arc;

/// A message that a block works on, with a share of the block's work.
#[derive(Drop)]
pub struct Job<W> {
    pub(crate) work: Option<Arc<W, Global>>,
    kind: BlockKind,
    message: Value,
    ticket: u64,
}

impl<W> Job<W> {
    /// The job of a block of this kind with this work, of this message. The ticket is the number of the message among
    /// those that the block took, from 0 on.
    pub fn new(work: Option<Arc<W, Global>>, kind: BlockKind, message: Value, ticket: u64) -> Job<W>
        ensures work { work_in result ≡ option_map (λ work. arc_value work) work }
        ensures kind { kind_in result ≡ kind }
        ensures message { message_in result ≡ message }
        ensures ticket { ticket_in result ≡ ticket }
    {
        Job {
            work,
            kind,
            message,
            ticket,
        }
    }

    /// The number of its message among those that its block took, from 0 on.
    pub fn ticket(&self) -> u64
        ensures { result ≡ ticket_in self.now }
    {
        self.ticket
    }

    /// Its message.
    pub fn message(&self) -> &Value
        ensures { result.now ≡ message_in self.now }
    {
        &self.message
    }

    /// The kind of its block.
    pub fn kind(&self) -> BlockKind
        ensures { result ≡ kind_in self.now }
    {
        self.kind
    }

    /// The block's work, if it has one.
    pub fn work(&self) -> Option<&W>
        ensures { option_map (λ work. work.now) result ≡ work_in self.now }
    {
        match &self.work {
            Some(work) => Some(&**work),
            None => None,
        }
    }
}
