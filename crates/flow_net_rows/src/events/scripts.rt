//! Networks that are driven by scripts: what may happen in them, and what may not, one event after another.
//!
//! step                what it does
//! `link 1 want`       the event; it may happen
//! `not link 1 want`   nothing: the event may not happen
//! `once link 1 want`  the event; it may happen, and then it may not
//! `bring 3`           the events by which message 3 comes from the input of a chain to its second block
//! `end 1 0`           the result of block 1 with ticket 0 comes back, in whichever network its job began
//! `settle`            all that may happen
//! `change`            from here on the steps are those of an equal network, or of the first one again
//! `shows LINES`       nothing: the report has these lines
use flow_drawn::split_word;
use flow_link::{Ending, LinkEnd, LinkId, Move, PortId};
use flow_net::Net;
use flow_trial::{Asked, PAIR, Results, THREE, came_to, is_done, network, settles};
use flow_value::{MessageHeader, Runs, Steps};
use std::alloc::Global;
use std::mem::swap;
use std::process::Abort;
use std::test::Fail;

/// A script: its name, the network, drawn, the values that are posted, and the steps.
type Script = (&'static str, &'static str, &'static str, &'static str);

const TWO_LANES: &str = r#"in buffer => t transform/2 ["int"] => out action []"#;

const SCRIPTS: &[Script] = &[
    (
        "what may not happen changes nothing",
        PAIR,
        "'1",
        "not done 0, not make 0, not begin 0, not begin 1, not complete 0 0, not complete 0 1, not fault 1, \
         not link 0 offer 1, not link 1 offer 2, not link 1 want, not link 1 give, not link 1 post 1, \
         not link 1 complete, not link 2 want, not make 2, not begin 2, not complete 2 0, not fault 2, not done 2, \
         shows block in open ; input [\"1\"] ; port 0 [] ; held 0 [] ; link 0 [] ; left [] ; \
         block out open ; port 0 [] ; held 0 [] ; record []",
    ),
    (
        "what may happen is done once",
        PAIR,
        "'1",
        "once link 1 offer 1, once link 1 want, once link 1 give, once link 1 open, once link 1 close, once make 0, \
         once link 1 complete, once complete 0 0, once link 0 offer 1, once link 0 want, once link 0 give, \
         once link 0 open, once link 0 close, once begin 1, end 1 0, once done 0, \
         shows block in done ; left [] ; block out open ; held 0 [] ; record [\"1\"]",
    ),
    (
        "a result that was kept comes too late",
        THREE,
        "'1 '2 '3",
        "bring 1, begin 1, settle, shows block out done ; record [1,2,3], not end 1 0, not end 1 0",
    ),
    (
        "tickets return out of order",
        TWO_LANES,
        "'1 '2 '3",
        "bring 1, bring 2, bring 3, begin 1, begin 1, not begin 1, \
         end 1 1, shows block t open ; held 0 [\"1\",\"2\",\"3\"] ; left [], \
         end 1 0, shows block t open ; held 0 [\"3\"] ; left [1,2]",
    ),
    (
        "a result that waits keeps no lane busy",
        TWO_LANES,
        "'1 '2 '3 '4",
        "bring 1, bring 2, bring 3, bring 4, begin 1, begin 1, not begin 1, \
         end 1 1, begin 1, not begin 1, end 1 2, begin 1, not begin 1, \
         shows block t open ; held 0 [\"1\",\"2\",\"3\",\"4\"] ; left [], \
         end 1 0, shows block t open ; held 0 [\"4\"] ; left [1,2,3], \
         end 1 3, shows block t open ; held 0 [] ; left [1,2,3,4]",
    ),
    (
        "a result is taken once",
        TWO_LANES,
        "'1 '2 '3",
        "bring 1, bring 2, begin 1, begin 1, end 1 1, \
         change, bring 1, bring 2, begin 1, begin 1, \
         change, not end 1 1, end 1 0, not end 1 1, shows block t open ; left [1,2]",
    ),
];

const BRING: &str = "link 2 offer #, link 2 want, link 2 give, link 2 open, link 2 close, make 0, \
     link 0 offer #, link 0 want, link 0 give, link 0 open, link 0 close";

/// A network that is driven, one equal to it, and the results of both that did not come back.
#[derive(Drop)]
struct Stage
where
    Steps: Runs,
{
    net: Net<Steps>,
    other: Net<Steps>,
    results: Results,
}
/// The move that these words are; `#` is the message with this id.
fn move_of(words: &str, id: u64) -> Option<Move> {
    let (word, message) = split_word(words);
    let id = if message == "#" {
        id
    } else {
        message.parse::<u64>().unwrap_or(id)
    };
    match word {
        "offer" => Some(Move::Offer(MessageHeader::new(id)?)),
        "post" => Some(Move::Post(MessageHeader::new(id)?)),
        "want" => Some(Move::Want),
        "give" => Some(Move::Give),
        "open" => Some(Move::Open),
        "close" => Some(Move::Close),
        "complete" => Some(Move::End(LinkEnd::Complete)),
        _ => None,
    }
}

/// The event that these words ask for.
fn asked_by(words: &str, id: u64) -> Option<Asked> {
    let (word, others) = split_word(words);
    let (digits, others) = split_word(others);
    let number = digits.parse::<usize>().ok()?;
    match word {
        "link" => Some(Asked::Link(digits.parse::<LinkId>().ok()?, move_of(others, id)?)),
        "make" => Some(Asked::Make(number)),
        "begin" => Some(Asked::Begin(number)),
        "end" => Some(Asked::End(number, Some(others.parse::<u64>().ok()?))),
        "complete" => Some(Asked::Complete(number, others.parse::<PortId>().ok()?)),
        "fault" => Some(Asked::Fault(number)),
        "done" => Some(Asked::Done(number)),
        _ => None,
    }
}

impl Stage {
    fn new(alloc: Global, drawn: &str, words: &str) -> Result<Stage, Fail> {
        Ok(Stage {
            net: network(alloc, drawn, words, Ending::Complete)?,
            other: network(alloc, drawn, words, Ending::Complete)?,
            results: Vec::new(alloc),
        })
    }

    /// Asks for the event of these words, and tells whether it is done.
    fn does(&mut self, rt: &impl Abort, alloc: Global, words: &str, id: u64) -> Result<bool, Fail> {
        let asked = asked_by(words, id).ok_or("no event")?;
        is_done(alloc, &mut self.net, &mut self.results, asked)
    }

    /// Tells whether this may not happen. A result that is asked for has to be there, and is kept.
    fn refuses(&mut self, rt: &impl Abort, alloc: Global, words: &str) -> Result<bool, Fail> {
        let kept = self.results.len();
        let is_result_there = !words.starts_with("end") || kept > 0;
        let is_refused = !self.does(rt, alloc, words, 0)?;
        Ok(is_refused && is_result_there && self.results.len() == kept)
    }

    fn bring(&mut self, rt: &impl Abort, alloc: Global, id: &str) -> Result<bool, Fail> {
        let id = id.parse::<u64>().map_err(|_| "no id")?;
        for words in BRING.split(", ") {
            if !self.does(rt, alloc, words, id)? {
                return Ok(false);
            }
        }
        Ok(true)
    }

    /// Does a step, and tells whether it came out as it should.
    fn act(&mut self, rt: &impl Abort, alloc: Global, step: &str) -> Result<bool, Fail> {
        let (word, others) = split_word(step);
        match word {
            "not" => self.refuses(rt, alloc, others),
            "once" => { Ok(self.does(rt, alloc, others, 0)? && self.refuses(rt, alloc, others)?) }
            "bring" => self.bring(rt, alloc, others),
            "settle" => Ok(settles(alloc, &mut self.net)),
            "change" => {
                swap(&mut self.net, &mut self.other);
                Ok(true)
            }
            "shows" => Ok(came_to(alloc, &self.net, &[others])?.is_some()),
            _ => self.does(rt, alloc, step, 0),
        }
    }
}

#[test]
fn scripts_come_out_as_they_should(rt: HostRuntime) -> Result<(), Fail> {
    for (name, drawn, words, steps) in SCRIPTS {
        let mut stage = Stage::new(rt.alloc(), drawn, words)?;
        for step in steps.split(", ") {
            assert!(rt; stage.act(&rt, rt.alloc(), step)?, "{name}: {step}");
        }
    }
    Ok(())
}
