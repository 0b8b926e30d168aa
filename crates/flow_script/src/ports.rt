//! Ports that own a network on one thread.

use crate::lines::{Line, ending_of};
use crate::said::Said;
use crate::stage::Place;
use flow_net::{NetEntry, NetExit};
use flow_poll::{OutputAvailable, Post, Receive, ReceivePort, SendAsync, SendPort};
use flow_value::{Steps, Value};
use futures::task::Poll;
use futures::test::MockTask;
use std::alloc::Global;

/// Does a line at an entry.
pub(crate) fn entry_line(
    alloc: Global,
    task: &MockTask,
    line: Line,
    mut port: NetEntry<Steps>,
    said: &mut Said,
) -> (Place, bool) {
    if line.words == "leave" {
        return (Place::Net(port.into_net()), true);
    }
    if line.word == "future" {
        return entry_future(alloc, task, line, port, said);
    }
    let is_word = entry_word(alloc, line, &mut port, said);
    (Place::Entry(port), is_word)
}

fn entry_word(alloc: Global, line: Line, port: &mut NetEntry<Steps>, said: &mut Said) -> bool {
    match line.word {
        "look" if line.behind.is_empty() => said.tell(&port.look(alloc)),
        "accepted" if line.behind.is_empty() => said.tell(&port.accepted()),
        "post" | "send" => begin(alloc, line, port, said),
        "finish" => finish(line.behind, port, said),
        _ => false,
    }
}

fn begin(alloc: Global, line: Line, port: &mut NetEntry<Steps>, said: &mut Said) -> bool {
    match line.behind.parse::<i64>() {
        Ok(number) => said.tell(&port.begin(alloc, Value::Int(number), line.word == "send")),
        Err(_) => false,
    }
}

fn finish(words: &str, port: &mut NetEntry<Steps>, said: &mut Said) -> bool {
    match ending_of(words) {
        Some(how) if how.is_numbered() => said.tell(&port.finish(how)),
        Some(_) | None => false,
    }
}

/// Does a future at an entry.
fn entry_future(
    alloc: Global,
    task: &MockTask,
    line: Line,
    port: NetEntry<Steps>,
    said: &mut Said,
) -> (Place, bool) {
    let Ok(number) = line.rest.parse::<i64>() else {
        return (Place::Entry(port), false);
    };
    match line.name {
        "post" => (Place::Entry(post(alloc, task, port, number, said)), true),
        "send" => (Place::Entry(send(alloc, task, port, number, said)), true),
        _ => (Place::Entry(port), false),
    }
}

/// Says that a future waits, and is to be polled again.
fn say_waits(said: &mut Said, task: &MockTask) {
    said.put(if task.is_woken() {
        "Pending"
    } else {
        "Pending, and sleeps"
    });
}

fn post(
    alloc: Global,
    task: &MockTask,
    port: NetEntry<Steps>,
    number: i64,
    said: &mut Said,
) -> NetEntry<Steps> {
    let mut posting = Post::new(alloc, port, Value::Int(number));
    match task.poll(&mut posting) {
        Poll::Ready((port, answer)) => {
            said.tell(&answer);
            port
        }
        Poll::Pending => {
            say_waits(said, task);
            posting.into_port()
        }
    }
}

fn send(
    alloc: Global,
    task: &MockTask,
    port: NetEntry<Steps>,
    number: i64,
    said: &mut Said,
) -> NetEntry<Steps> {
    let mut sending = SendAsync::new(alloc, port, Value::Int(number));
    match task.poll(&mut sending) {
        Poll::Ready((port, answer)) => {
            said.tell(&answer);
            port
        }
        Poll::Pending => {
            say_waits(said, task);
            sending.into_port()
        }
    }
}

/// Does a line at an exit.
pub(crate) fn exit_line(
    alloc: Global,
    task: &MockTask,
    line: Line,
    mut port: NetExit<Steps>,
    said: &mut Said,
) -> (Place, bool) {
    match line.words {
        "leave" => (Place::Net(port.into_net()), true),
        "future receive" => (Place::Exit(receive(alloc, task, port, said)), true),
        "future output" => (Place::Exit(see(alloc, task, port, said)), true),
        _ => {
            let is_word = exit_word(alloc, line, &mut port, said);
            (Place::Exit(port), is_word)
        }
    }
}

fn exit_word(alloc: Global, line: Line, port: &mut NetExit<Steps>, said: &mut Said) -> bool {
    match line.words {
        "receive" => said.tell(&port.try_receive(alloc)),
        "available" => said.tell(&port.available(alloc)),
        "received" => said.tell(&port.received()),
        _ => false,
    }
}

/// Waits for a message.
fn receive(
    alloc: Global,
    task: &MockTask,
    port: NetExit<Steps>,
    said: &mut Said,
) -> NetExit<Steps> {
    let mut receiving = Receive::new(alloc, port);
    match task.poll(&mut receiving) {
        Poll::Ready((port, receipt)) => {
            said.tell(&receipt);
            port
        }
        Poll::Pending => {
            say_waits(said, task);
            receiving.into_port()
        }
    }
}

/// Waits until a message is there, or none will come.
fn see(alloc: Global, task: &MockTask, port: NetExit<Steps>, said: &mut Said) -> NetExit<Steps> {
    let mut watching = OutputAvailable::new(alloc, port);
    match task.poll(&mut watching) {
        Poll::Ready((port, told)) => {
            said.tell(&told);
            port
        }
        Poll::Pending => {
            say_waits(said, task);
            watching.into_port()
        }
    }
}
