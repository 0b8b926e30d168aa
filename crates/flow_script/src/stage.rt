//! What the lines of a case are done to.

use crate::ends::end_word;
use crate::lines::Line;
use crate::nets::{drawn_line, input_line, net_line};
use crate::ports::{entry_line, exit_line};
use crate::said::Said;
use flow_exit::ExitEnd;
use flow_front::Inputs;
use flow_net::{Net, NetEntry, NetExit};
use flow_value::Steps;
use futures::test::MockTask;
use std::alloc::{AllocGlobal, Global};
use std::random::RandomSource;

/// What the next line is done to.
#[derive(Drop)]
pub(crate) enum Place {
    Nothing,
    Inputs(Inputs<Steps>),
    Net(Net<Steps>),
    Entry(NetEntry<Steps>),
    Exit(NetExit<Steps>),
    End(ExitEnd),
}

/// Does a line, and tells what the next one is done to, and whether there is such a word.
pub(crate) fn do_line(
    rt: &(impl RandomSource + AllocGlobal),
    alloc: Global,
    line: Line,
    place: Place,
    said: &mut Said,
) -> (Place, bool) {
    if line.word == "case" {
        return (Place::Nothing, true);
    }
    let Ok(task) = MockTask::new(rt) else {
        return (Place::Nothing, said.put("no memory"));
    };
    match place {
        Place::Nothing => drawn_line(alloc, line, said),
        Place::Inputs(inputs) => input_line(alloc, line, inputs, said),
        Place::Net(net) => net_line(alloc, line, net, said),
        Place::Entry(port) => entry_line(alloc, &task, line, port, said),
        Place::Exit(port) => exit_line(alloc, &task, line, port, said),
        Place::End(mut exit) => {
            let is_word = end_word(alloc, line, &mut exit, said);
            (Place::End(exit), is_word)
        }
    }
}
