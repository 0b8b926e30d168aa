//! What happens at the end of a link out of a network, step by step.

use crate::check::check;

const ENDS: &str = r#"
case an offer waits for a receive
exitend
go 7 : None
phase offered 1
go 7 : Some(Postpone)
go 7 : None
receive : Ok(None)
ask
go 7 : Some(Consume)
go 7 : None
phase given 1
go 7 : Some(Open)
go 7 : Some(Close)
unask
receive : Ok(Some(Int(7)))
receive : Ok(None)
received : [Int(7)]

case a receive that waits gets one message
exitend
ask
phase offered 1
go 7 : Some(Want)
phase given 1
go 7 : Some(Open)
go 7 : Some(Close)
phase offered 2
go 8 : Some(Postpone)
go 8 : None
receive : Ok(Some(Int(7)))
go 8 : Some(Consume)

case a post is taken at once or not at all
exitend
phase posted 1
go 7 : Some(TurnDown)
ask
phase posted 2
go 7 : Some(Want)

case an exit tells that its block is done
exitend
outcome : None
phase ended complete
outcome : Some(Done)
next : None

case an exit tells that its block has faulted
exitend
outcome : None
phase ended fault 3
outcome : Some(Faulted(3))
next : None
"#;

#[test]
fn ends_go_on(rt: HostRuntime) {
    check(&rt, "ends", 5, ENDS);
}
