//! Scripts, line by line, and what is printed of those that fail.

use crate::lines::{Line, is_one_of, read_line};
use crate::said::Said;
use crate::stage::{Place, do_line};
use std::alloc::{AllocGlobal, Global};
use std::random::RandomSource;

/// What a text has come to.
#[derive(Drop)]
pub struct Judged {
    /// How many cases there are.
    pub cases: u64,
    /// How many of them failed.
    pub failed: u64,
    /// The lines that failed, each with what it had to answer and what it answered; and how many there are in all.
    pub print: String,
}

/// What a text has come to so far.
#[derive(Drop)]
struct Tally {
    /// The number of the line that was begun last.
    number: u64,
    /// Something in its case has failed.
    is_off: bool,
    /// What the line answers.
    said: Said,
    cases: u64,
    answers: u64,
    failed: u64,
    print: Said,
}

/// What is printed of an answer.
fn got_of(text: &str, is_word: bool) -> &str {
    if !is_word {
        "no word"
    } else if text.is_empty() {
        "nothing"
    } else {
        text
    }
}

impl Tally {
    fn new(alloc: Global) -> Tally {
        Tally {
            number: 0,
            is_off: false,
            said: Said::new(alloc),
            cases: 0,
            answers: 0,
            failed: 0,
            print: Said::new(alloc),
        }
    }

    /// Begins a line, and tells whether there is something to be done.
    fn begin(&mut self, text: &str) -> bool {
        self.number = self.number.saturating_add(1);
        self.said.clear();
        if text.starts_with("case ") {
            self.cases = self.cases.saturating_add(1);
            self.is_off = false;
        }
        !self.is_off && !text.is_empty() && !text.starts_with("#")
    }

    /// Compares what a line has answered with what it has to answer.
    fn judge(&mut self, topic: &str, line: Line, is_word: bool) {
        self.answers = self.answers.saturating_add(1);
        let text = self.said.text();
        let is_met = match line.wanted {
            Some(wanted) => is_one_of(wanted, text),
            None => text.is_empty() || text == "Ok(())",
        };
        if !is_met || !is_word || !self.said.is_whole() {
            self.fail(topic, line, is_word);
        }
    }

    /// The case fails at this line.
    fn fail(&mut self, topic: &str, line: Line, is_word: bool) {
        self.is_off = true;
        self.failed = self.failed.saturating_add(1);
        self.print.put(topic);
        self.print.put(", line ");
        self.print.tell(&self.number);
        self.print.put(": ");
        self.print.put(line.words);
        self.print.put("\n  wanted  ");
        self.print.put(line.wanted.unwrap_or("Ok(())"));
        self.print.put("\n  got     ");
        self.print.put(got_of(self.said.text(), is_word));
        self.print.put("\n");
    }

    fn into_judged(self) -> Judged {
        let Tally {
            cases,
            answers,
            failed,
            mut print,
            ..
        } = self;
        print.tell(&cases);
        print.put(" cases, ");
        print.tell(&answers);
        print.put(" answers, ");
        print.tell(&failed);
        print.put(" failed\n");
        Judged {
            cases,
            failed,
            print: print.into_text(),
        }
    }
}

/// Does all cases of a text. Where memory is out for the print, the counts tell.
pub fn judge_text(
    rt: &(impl RandomSource + AllocGlobal),
    alloc: Global,
    topic: &str,
    text: &str,
) -> Judged {
    let mut tally = Tally::new(alloc);
    let mut place = Place::Nothing;
    for text in text.split("\n") {
        if !tally.begin(text) {
            continue;
        }
        let line = read_line(text);
        let (next, is_word) = do_line(rt, alloc, line, place, &mut tally.said);
        place = next;
        tally.judge(topic, line, is_word);
    }
    tally.into_judged()
}
