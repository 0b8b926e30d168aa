//! What is posted to a name is at the input of that name, and what is asked of a name is told of that block.

use crate::check::check;

const NAMES: &str = r#"
case values stand at the input of their name
net out action(id), left* buffer, middle buffer, right* buffer, left -> out, right -> out with right=1 left=2 right=3
start
posted left : [Int(2)]
posted middle : []
posted right : [Int(1), Int(3)]

case a name of no input is refused
net out action(id), left* buffer, middle buffer, right* buffer, left -> out, right -> out with right=1 left=2 right=3
post out 7 : Err(NoInput(Int(7)))
end out open : Err(NoInput)
post middle 7 : Err(NoInput(Int(7)))
end middle open : Err(NoInput)
post nobody 7 : Err(NoInput(Int(7)))
end nobody open : Err(NoInput)
post lef 7 : Err(NoInput(Int(7)))
end lef open : Err(NoInput)
post  7 : Err(NoInput(Int(7)))
end  open : Err(NoInput)

# The record has the three numbers, in whatever order the two inputs give theirs.
case blocks tell by their names
net out action(id), left* buffer, middle buffer, right* buffer, left -> out, right -> out with right=1 left=2 right=3
end left open
start
settle : Ok(Quiet)
state left : Some(Open)
state right : Some(Done)
state nobody : None
record out : Some([Int(2), Int(1), Int(3)]) | Some([Int(1), Int(2), Int(3)]) | Some([Int(1), Int(3), Int(2)])
record nobody : None

case an input ends as it is told
net out action(id), left* buffer, middle buffer, right* buffer, left -> out, right -> out
end right fault 9
end left fault 0 : Err(FaultZero)
start
settle : Ok(Quiet)
state left : Some(Done)
state right : Some(Faulted(9))

# Messages go on in runs, and what was made of some of them before a fault goes on first.
case what was made before a fault goes on
net in* buffer, double transform(mul 2), out action(id), in -> double, double -> out with in=1 in=2 in,three in=4
start
settle : Ok(Quiet)
state double : Some(Faulted(1))
record out : Some([Int(2), Int(4)])
"#;

#[test]
fn names_are_those_of_blocks(rt: HostRuntime) {
    check(&rt, "names", 5, NAMES);
}
