//! What each call at a port answers, and each future over one.

use crate::check::check;

const PORTS: &str = r#"
# The network is given back between two uses.
case a bounded buffer takes what it has room for
net b* buffer capacity 1 output true with b?
start
entry b
future post 1 : Ok(Accepted)
leave
entry b
future post 2 : Ok(Declined(Int(2)))
leave
entry b
future send 2 : Pending
leave
entry b
future post 9 : Err(NotBegun(Int(9), Busy))
leave
exit b
future receive : Ok(Message(Int(1)))
leave
entry b
look : Ok(Accepted)
accepted : [Int(1), Int(2)]
leave
exit b
future output : Ok(true)
leave
exit b
future receive : Ok(Message(Int(2)))
leave
entry b
finish complete
future post 3 : Ok(Permanently(Int(3)))
leave
exit b
future receive : Ok(Ended(Done))

case a declined value is not posted
net b* buffer capacity 1 output true with b?
start
entry b
future post 1 : Ok(Accepted)
leave
entry b
future post 2 : Ok(Declined(Int(2)))
leave
posted b : [Int(1)]
settle : Ok(Quiet)

case an exit of a block that has ended is over
net b* buffer capacity 1 output true
start
exit b
future receive : Ok(Ended(Done))
leave
exit b
future output : Ok(false)
leave
entry b : None

case nothing comes from an input that stays open
net b* buffer capacity 1 output true with b?
start
exit b
future receive : Pending
future output : Pending

case what was posted before is told first
net in* buffer capacity 1, double transform(mul 2) output true, in => double with in=1 in=2 in?
start
entry in
send 3 : Err((Int(3), Busy))
look : Ok(Accepted)
look : Ok(Accepted)
look : Ok(Idle)
send 3
look : Ok(Accepted)
accepted : [Int(1), Int(2), Int(3)]

case an entry ends its input once
net in* buffer capacity 1, double transform(mul 2) output true, in => double with in?
start
entry in
post 1
finish complete : Err(Busy)
look : Ok(Accepted)
finish fault 7
finish complete
send 2
look : Ok(Permanently(Int(2)))
look : Ok(Idle)

case what is under way stays for the next entry
net in* buffer capacity 1, double transform(mul 2) output true, in => double with in?
start
entry in
post 1
leave
settle : Ok(Quiet)
entry in
look : Ok(Accepted)
look : Ok(Idle)

case a block that is no input gives the network back
net in* buffer capacity 1, double transform(mul 2) output true, in => double with in?
start
entry double : None
settle : Ok(Quiet)

case an input that is to end gives the network back
net in* buffer capacity 1, double transform(mul 2) output true, in => double
start
entry in : None
settle : Ok(Quiet)

case messages come out in order and then the end
net in* buffer capacity 1, double transform(mul 2) output true, in => double with in=1 in=2 in=3
start
exit double
available : Ok(Some(true))
receive : Ok(Message(Int(2)))
available : Ok(Some(true))
receive : Ok(Message(Int(4)))
available : Ok(Some(true))
receive : Ok(Message(Int(6)))
receive : Ok(Ended(Done))
available : Ok(Some(false))

case an exit tells a fault
net in* buffer capacity 1, double transform(mul 2) output true, in => double with in=1 in,three
start
exit double
receive : Ok(Message(Int(2)))
receive : Ok(Ended(Faulted(1)))

case a network comes back as it is
net in* buffer capacity 1, double transform(mul 2) output true, in => double with in=1 in=2
start
exit double
receive : Ok(Message(Int(2)))
leave
settle : Ok(Quiet)
exit double
receive : Ok(Message(Int(4)))
receive : Ok(Ended(Done))

case a block without an exit gives the network back
net in* buffer capacity 1, double transform(mul 2) output true, in => double with in=1
start
exit in : None
exit nobody : None
settle : Ok(Quiet)

case a look does no more events than it may
net in* buffer capacity 1, double transform(mul 2) output true, in => double with in=1
start
exit double 1
available : Ok(None)
receive : Ok(Waiting)

case futures over an exit are ready
net in* buffer capacity 1, double transform(mul 2) output true, in => double with in=1
start
exit double
future output : Ok(true)
future receive : Ok(Message(Int(2)))
"#;

#[test]
fn ports_own_a_network(rt: HostRuntime) {
    check(&rt, "ports", 15, PORTS);
}
