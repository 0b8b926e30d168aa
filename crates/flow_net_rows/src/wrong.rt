//! A line that answers something else than it has to fails: one case for each word, in which the last line fails.

use flow_script::judge_text;

const WRONG: &str = r#"
case a word that there is not
net b* buffer output true
start
jump

case a word that is left over
net b* buffer output true
start all

case a question without an answer
net b* buffer output true
start
record b

case one of several answers
net b* buffer output true
start
state b : Some(Done) | Some(Completing) | None

case a network in another language
draw b* buffer

case net
net b* batch

case exitend
exitend : None

case exitend with words behind
exitend 7

case post
net b* buffer output true
post b 1 : Err(NoInput(Int(1)))

case post of no number
net b* buffer output true
post b x

case end
net b* buffer output true
end b open : Err(NoInput)

case end by no word
net b* buffer output true
end b later

case start
net b* buffer output true
start : None

case settle
net b* buffer output true
start
settle 0 : Ok(Quiet)

case settle by no number
net b* buffer output true
start
settle all : Ok(Quiet)

case state
net b* buffer output true with b?
start
state b : Some(Done)

case record
net in* buffer, out action(int), in => out with in=1
start
settle : Ok(Quiet)
record out : Some([Int(2)])

case posted
net b* buffer output true with b=1
start
posted b : [Int(2)]

case posted to nobody
net b* buffer output true with b=1
start
posted nobody : []

case entry
net b* buffer output true
start
entry b

case entry by no number
net b* buffer output true with b?
start
entry b all

case exit
net in* buffer, out action(int), in => out
start
exit in

case exit by no number
net b* buffer output true
start
exit b all

case post at an entry
net b* buffer output true with b?
start
entry b
post 1 : Err((Int(1), Busy))

case send at an entry
net b* buffer output true with b?
start
entry b
send 1 : Err((Int(1), Busy))

case look at an entry
net b* buffer output true with b?
start
entry b
look : Ok(Accepted)

case look with words behind
net b* buffer output true with b?
start
entry b
look b : Ok(Idle)

case accepted at an entry
net b* buffer output true with b?
start
entry b
accepted : [Int(1)]

case finish at an entry
net b* buffer output true with b?
start
entry b
finish complete : Err(Busy)

case finish with fault zero
net b* buffer output true with b?
start
entry b
finish fault 0

case leave an entry
net b* buffer output true with b?
start
entry b
leave : None

case future post at an entry
net b* buffer output true with b?
start
entry b
future post 1 : Pending

case future send at an entry
net b* buffer output true with b?
start
entry b
future send 1 : Pending

case another future at an entry
net b* buffer output true with b?
start
entry b
future finish 1 : Ok(())

case a future that waits
net b* buffer capacity 1 output true with b=1 b?
start
entry b
look : Ok(Accepted)
future send 2 : Ok(Accepted)

case receive at an exit
net b* buffer output true with b=7
start
exit b
receive : Ok(Message(Int(8)))

case available at an exit
net b* buffer output true with b=7
start
exit b
available : Ok(Some(false))

case received at an exit
net b* buffer output true
start
exit b
received : [Int(7)]

case leave an exit
net b* buffer output true
start
exit b
leave : None

case future receive at an exit
net b* buffer output true with b=7
start
exit b
future receive : Pending

case future output at an exit
net b* buffer output true with b=7
start
exit b
future output : Ok(false)

case phase
exitend
phase offered 1 : None

case phase by no word
exitend
phase gone 1

case phase without an id
exitend
phase offered 0

case phase with an end that is none
exitend
phase ended open

case go
exitend
phase offered 1
go 7 : Some(Want)

case go with no number
exitend
go on : None

case ask
exitend
ask : None

case unask
exitend
unask : None

case receive at an end
exitend
receive : Ok(Some(Int(7)))

case received at an end
exitend
received : [Int(7)]

case next
exitend
next : Some(Open)

case outcome
exitend
outcome : Some(Done)
"#;

const PRINT: &str = r#"wrong, line 5: jump
  wanted  Ok(())
  got     no word
wrong, line 9: start all
  wanted  Ok(())
  got     no word
wrong, line 14: record b
  wanted  Ok(())
  got     Some([])
wrong, line 19: state b
  wanted  Some(Done) | Some(Completing) | None
  got     Some(Open)
wrong, line 22: draw b* buffer
  wanted  Ok(())
  got     no word
wrong, line 25: net b* batch
  wanted  Ok(())
  got     no plan
wrong, line 28: exitend
  wanted  None
  got     nothing
wrong, line 31: exitend 7
  wanted  Ok(())
  got     no word
wrong, line 35: post b 1
  wanted  Err(NoInput(Int(1)))
  got     Ok(())
wrong, line 39: post b x
  wanted  Ok(())
  got     no word
wrong, line 43: end b open
  wanted  Err(NoInput)
  got     Ok(())
wrong, line 47: end b later
  wanted  Ok(())
  got     no word
wrong, line 51: start
  wanted  None
  got     nothing
wrong, line 56: settle 0
  wanted  Ok(Quiet)
  got     Ok(Stopped)
wrong, line 61: settle all
  wanted  Ok(Quiet)
  got     no word
wrong, line 66: state b
  wanted  Some(Done)
  got     Some(Open)
wrong, line 72: record out
  wanted  Some([Int(2)])
  got     Some([Int(1)])
wrong, line 77: posted b
  wanted  [Int(2)]
  got     [Int(1)]
wrong, line 82: posted nobody
  wanted  []
  got     None
wrong, line 87: entry b
  wanted  Ok(())
  got     None
wrong, line 92: entry b all
  wanted  Ok(())
  got     no word
wrong, line 97: exit in
  wanted  Ok(())
  got     None
wrong, line 102: exit b all
  wanted  Ok(())
  got     no word
wrong, line 108: post 1
  wanted  Err((Int(1), Busy))
  got     Ok(())
wrong, line 114: send 1
  wanted  Err((Int(1), Busy))
  got     Ok(())
wrong, line 120: look
  wanted  Ok(Accepted)
  got     Ok(Idle)
wrong, line 126: look b
  wanted  Ok(Idle)
  got     no word
wrong, line 132: accepted
  wanted  [Int(1)]
  got     []
wrong, line 138: finish complete
  wanted  Err(Busy)
  got     Ok(())
wrong, line 144: finish fault 0
  wanted  Ok(())
  got     no word
wrong, line 150: leave
  wanted  None
  got     nothing
wrong, line 156: future post 1
  wanted  Pending
  got     Ok(Accepted)
wrong, line 162: future send 1
  wanted  Pending
  got     Ok(Accepted)
wrong, line 168: future finish 1
  wanted  Ok(())
  got     no word
wrong, line 175: future send 2
  wanted  Ok(Accepted)
  got     Pending
wrong, line 181: receive
  wanted  Ok(Message(Int(8)))
  got     Ok(Message(Int(7)))
wrong, line 187: available
  wanted  Ok(Some(false))
  got     Ok(Some(true))
wrong, line 193: received
  wanted  [Int(7)]
  got     []
wrong, line 199: leave
  wanted  None
  got     nothing
wrong, line 205: future receive
  wanted  Pending
  got     Ok(Message(Int(7)))
wrong, line 211: future output
  wanted  Ok(false)
  got     Ok(true)
wrong, line 215: phase offered 1
  wanted  None
  got     nothing
wrong, line 219: phase gone 1
  wanted  Ok(())
  got     no word
wrong, line 223: phase offered 0
  wanted  Ok(())
  got     no word
wrong, line 227: phase ended open
  wanted  Ok(())
  got     no word
wrong, line 232: go 7
  wanted  Some(Want)
  got     Some(Postpone)
wrong, line 236: go on
  wanted  None
  got     no word
wrong, line 240: ask
  wanted  None
  got     nothing
wrong, line 244: unask
  wanted  None
  got     nothing
wrong, line 248: receive
  wanted  Ok(Some(Int(7)))
  got     Ok(None)
wrong, line 252: received
  wanted  [Int(7)]
  got     []
wrong, line 256: next
  wanted  Some(Open)
  got     None
wrong, line 260: outcome
  wanted  Some(Done)
  got     None
53 cases, 207 answers, 53 failed
"#;

#[test]
fn wrong_answers_fail(rt: HostRuntime) {
    let judged = judge_text(&rt, rt.alloc(), "wrong", WRONG);
    let print = judged.print.as_str();
    if judged.failed != judged.cases || print != PRINT {
        panic!(rt; "{print}");
    }
}
