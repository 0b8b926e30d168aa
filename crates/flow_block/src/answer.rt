//! What can be taken out of an answer.
ghost use Rattle.std.specs.Prelude.{◌≡◌};
ghost use Rattle.flow_block.specs.Jobs.{made_in};

use crate::jobs::Answer;
use flow_value::Value;

impl Answer {
    /// The results, or the number of the fault.
    pub fn into_made(self) -> Result<Vec<Value>, u32>
        ensures { made_in result ≡ self }
    {
        self.made
    }
}
