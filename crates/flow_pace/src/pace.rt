//! How long the events of a network take.
ghost use Rattle.std.specs.Prelude.{◌<◌};

/// How closely events are watched.
#[derive(Clone, Copy)]
pub(crate) struct Watch {
    /// Over how many milliseconds of processor time events are counted before they are judged, at least.
    span: u64,
    /// How many are done between two looks at the time, at most. Messages go on in runs, and each look cuts one.
    most: u64,
}

/// At first: most networks have short events alone, and are not to be held up.
pub(crate) const AT_FIRST: Watch = Watch {
    span: 8,
    most: 4_096,
};

/// After a crew, which waits meanwhile for its owner's judgement.
pub(crate) const AGAIN: Watch = Watch { span: 2, most: 256 };

/// How many events go into a millisecond, at least, where they are short. A crew does one in about as long.
pub(crate) const SHORT: u64 = 1_000;

/// The same where a block has several lanes. So its works are done side by side by a crew, and only what is around them in turn.
pub(crate) const SHORT_IN_LANES: u64 = 2_000;

/// Counts events against the milliseconds of processor time that their thread uses.
#[derive(Drop)]
pub(crate) struct Pace {
    since: u64,
    events: u64,
    share: u64,
    // the time of the last look
    seen: u64,
    // how many events go into a millisecond, at least, where they are short
    short: u64,
    watch: Watch,
}

impl Pace {
    /// Begins to count at this time. Events are short where at least so many go into a millisecond.
    pub(crate) fn new(now: u64, short: u64, watch: Watch) -> Pace {
        Pace {
            since: now,
            events: 0,
            share: 1,
            seen: now,
            short,
            watch,
        }
    }

    /// How many events to do before the next look at the time. At first it is one, since any may take long; then it is twice as many each
    /// time, until they take a millisecond.
    pub(crate) fn share(&self) -> u64
        ensures some { 0 < result }
    {
        self.share.max(1)
    }

    /// Counts so many events more by this time, and answers whether those since the last judgement took long.
    pub(crate) fn is_long(&mut self, events: u64, now: u64) -> bool {
        if now == self.seen {
            self.share = self.share().saturating_mul(2).min(self.watch.most);
        }
        self.seen = now;
        self.events = self.events.saturating_add(events);
        let span = now.saturating_sub(self.since);
        if span < self.watch.span {
            return false;
        }
        let is_long = self.events < span.saturating_mul(self.short);
        self.since = now;
        self.events = 0;
        is_long
    }
}
