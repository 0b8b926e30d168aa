//! In which colours blocks and runs are shown.
use flow_outcome::{Outline, damage_in, is_through};
use flow_reading::{BlockReport, Report, Settled, State};

/// What became of a block or of a run.
#[derive(Clone, Copy)]
pub(crate) enum Tone {
    Faulted,
    Waiting,
    Done,
    /// Nothing is known of it.
    Plain,
}

impl Tone {
    /// The tones in the order in which blocks are listed.
    pub(crate) const ALL: [Tone; 4] = [Tone::Faulted, Tone::Waiting, Tone::Done, Tone::Plain];

    /// The class of what is shown so.
    pub(crate) fn class(self) -> &'static str {
        match self {
            Tone::Faulted => "faulted",
            Tone::Waiting => "waiting",
            Tone::Done => "done",
            Tone::Plain => "plain",
        }
    }

    pub(crate) fn is(self, other: Tone) -> bool {
        match (self, other) {
            (Tone::Faulted, Tone::Faulted)
            | (Tone::Waiting, Tone::Waiting)
            | (Tone::Done, Tone::Done)
            | (Tone::Plain, Tone::Plain) => true,
            (Tone::Faulted | Tone::Waiting | Tone::Done | Tone::Plain, _) => false,
        }
    }
}

/// The tone of a block.
pub(crate) fn tone_of_block(reported: Option<&BlockReport>) -> Tone {
    let Some(block) = reported else {
        return Tone::Plain;
    };
    match block.state {
        State::Faulted(_) => Tone::Faulted,
        State::Done if is_through(block) => Tone::Done,
        State::Done | State::Open | State::Completing => Tone::Waiting,
    }
}

/// The tone of a run: that of its worst block, or of what was stopped. A damaged report is as bad as a fault.
pub(crate) fn tone_of_run(outline: &Outline, report: &Report) -> Tone {
    if damage_in(outline, report).is_some() {
        return Tone::Faulted;
    }
    let mut tone = match report.settled {
        Settled::Quiet => Tone::Done,
        Settled::Stopped => Tone::Waiting,
    };
    for block in &report.blocks {
        match tone_of_block(Some(block)) {
            Tone::Faulted => return Tone::Faulted,
            Tone::Waiting => tone = Tone::Waiting,
            Tone::Done | Tone::Plain => {}
        }
    }
    tone
}
