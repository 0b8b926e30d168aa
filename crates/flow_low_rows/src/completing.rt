//! `Completion` over something that ends when it was asked often enough.
ghost use Rattle.std.specs.Prelude.{⊤, if◌then◌else◌, nat_eq, Some, None};
ghost use Rattle.flow_link.specs.declared.trace.Outcome.TheVariants.{Done};

use crate::check::check;
use crate::driven::{ready, wait};
use flow_link::{Completing, Outcome};
use flow_poll::Completion;

/// Has ended once it was asked so many times.
#[derive(Drop)]
struct Slow {
    asked: u32,
}

impl Completing for Slow {
    ghost outcome = { λ s. if nat_eq s.asked 0 then Some Done else None };

    ghost learns = { λ _ _. ⊤ };

    fn completion(&mut self) -> Option<Outcome> {
        self.asked = self.asked.saturating_sub(1);
        if self.asked == 0 {
            Some(Outcome::Done)
        } else {
            None
        }
    }
}

#[test]
fn what_ends_is_waited_for(rt: HostRuntime) {
    let alloc = rt.alloc();
    let mut completion = Completion::new(alloc, Slow { asked: 3 });
    wait(&rt, "its end", &mut completion);
    let mut completion = Completion::new(alloc, completion.into_block());
    wait(&rt, "its end", &mut completion);
    let (block, outcome) = ready(&rt, "its end", completion);
    check(&rt, "its outcome", outcome == Outcome::Done);
    check(&rt, "how often it was asked", block.asked == 0);
}
