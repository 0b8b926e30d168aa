//! Networks of all kinds of blocks, with records and what each comes to.

/// Chains of two and three blocks.
pub const CHAINS: &str = r#"
empty run
in* buffer, out action(), in => out
none
0 all block in done ; input [] ; port 0 [] ; held 0 [] ; link 0 [] ; left [] ; block out done ; port 0 [] ; held 0 [] ; record [] ; quiet

one message
in* buffer, out action(), in => out
in,7
0 all block in done ; input [] ; port 0 ["7"] ; held 0 [] ; link 0 ["7"] ; left [] ; block out done ; port 0 ["7"] ; held 0 [] ; record ["7"] ; quiet

parse three
in* buffer, t transform(int), out action(), in => t, t => out
in,1 in,2 in,3
0 all block in done ; input [] ; port 0 ["1","2","3"] ; held 0 [] ; link 0 ["1","2","3"] ; left [] ; block t done ; port 0 ["1","2","3"] ; held 0 [] ; link 1 [1,2,3] ; left [] ; block out done ; port 0 [1,2,3] ; held 0 [] ; record [1,2,3] ; quiet
"#;

/// Blocks with room for so many messages, and links that admit some or so many.
pub const LINKS: &str = r#"
bounded chain
in* buffer capacity 1, b buffer capacity 1, c buffer capacity 1, out action(), in => b, b => c, c => out
in,1 in,2 in,3 in,4 in,5 in,6 in,7 in,8 in,9 in,10 in,11 in,12 in,13 in,14 in,15 in,16 in,17 in,18 in,19 in,20
0 block in done ; block b done ; block c done ; block out done ; record ["1","2","3","4","5","6","7","8","9","10","11","12","13","14","15","16","17","18","19","20"]

even and odd
in* buffer, t transform(int), a action(), b action(), in => t, t => a when even, t => b when any
in,1 in,2 in,3 in,4 in,5 in,6
0 block t done ; block a done ; record [2,4,6] ; block b done ; record [1,3,5]

unrouted head
in* buffer, t transform(int), a action(), in => t, t => a when even
in,2 in,1 in,4
1 block in done ; block t completing ; left [1,4] ; block a open ; record [2]

link limit
in* buffer, t transform(int), a action(), b action(), in => t, t => a max 2, t => b
in,1 in,2 in,3 in,4 in,5
1 block t done ; block a open ; record [1,2] ; block b done ; record [3,4,5]

two sources of one block
in* buffer, b buffer capacity 1, c buffer capacity 1, out action(int+add 0) capacity 1, in => b max 1, in => c, b => out, c => out
in,1 in,2
1 block in done ; block b open ; block c done ; block out done ; record [1,2]
1 block in done ; block b open ; block c done ; block out done ; record [2,1]
1 block in done ; block b open ; left ["1"] ; block c done ; block out done ; record [2]

one source, two bounded chains
in* buffer, b buffer capacity 1, x action(), c buffer capacity 1, y action(), in => b, b => x, in => c, c => y
in,1 in,2 in,3 in,4 in,5 in,6 in,7 in,8 in,9 in,10 in,11 in,12 in,13 in,14 in,15 in,16 in,17 in,18 in,19 in,20
0 block in done ; block b done ; block x done ; block c done ; block y done | "1" "2" "3" "4" "5" "6" "7" "8" "9" "10" "11" "12" "13" "14" "15" "16" "17" "18" "19" "20"
"#;

/// Functions that make several messages, and blocks that work on several at once.
pub const WORKS: &str = r#"
upto flattens
in* buffer, t transform_many(int+upto), out action(), in => t, t => out
in,2 in,0 in,3
0 all block in done ; input [] ; port 0 ["2","0","3"] ; held 0 [] ; link 0 ["2","0","3"] ; left [] ; block t done ; port 0 ["2","0","3"] ; held 0 [] ; link 1 [0,1,0,1,2] ; left [] ; block out done ; port 0 [0,1,0,1,2] ; held 0 [] ; record [0,1,0,1,2] ; quiet

upto flattens, with room for one message
in* buffer, t transform_many(int+upto) capacity 1, out action(), in => t, t => out
in,2 in,0 in,3
0 block in done ; block t done ; block out done ; record [0,1,0,1,2]

fault in a lane
in* buffer, t transform(int) lanes 3, out action(), in => t, t => out
in,1 in,x in,3
1 block in completing ; left ["3"] ; block t faulted 1 ; held 0 ["x"] ; left [] ; block out faulted 1 ; record [1]
1 block in completing ; left ["3"] ; block t faulted 1 ; held 0 ["x"] ; left [1] ; block out faulted 1 ; record []
1 block in done ; left [] ; block t faulted 1 ; held 0 ["x","3"] ; left [] ; block out faulted 1 ; record [1]
1 block in done ; left [] ; block t faulted 1 ; held 0 ["x","3"] ; left [1] ; block out faulted 1 ; record []

lanes before a block with room for one message
in* buffer, t transform_many(int+upto) lanes 2 capacity 3, u transform(add 1) lanes 16, out action() capacity 1, in => t, t => u, u => out
in,3 in,0 in,1 in,2
0 block in done ; block t done ; block u done ; block out done ; record [1,2,3,1,1,2]
"#;

/// Batches.
pub const BATCHES: &str = r#"
batch remainder
in* buffer, t transform(int), b batch size 3, out action(), in => t, t => b, b => out
in,1 in,2 in,3 in,4 in,5 in,6 in,7
0 all block in done ; input [] ; port 0 ["1","2","3","4","5","6","7"] ; held 0 [] ; link 0 ["1","2","3","4","5","6","7"] ; left [] ; block t done ; port 0 ["1","2","3","4","5","6","7"] ; held 0 [] ; link 1 [1,2,3,4,5,6,7] ; left [] ; block b done ; port 0 [1,2,3,4,5,6,7] ; held 0 [] ; link 2 [[1,2,3],[4,5,6],[7]] ; left [] ; block out done ; port 0 [[1,2,3],[4,5,6],[7]] ; held 0 [] ; record [[1,2,3],[4,5,6],[7]] ; quiet

batch with room for one row
in* buffer, t transform(int), b batch size 2 capacity 2, out action(sum) capacity 1, in => t, t => b, b => out
in,1 in,2 in,3 in,4 in,5
0 block in done ; block t done ; block b done ; block out done ; record [3,7,5]

a fault behind a batch that is not full
in* buffer, t transform(int), b batch size 2, out action(), in => t, t => b, b => out
in,1 in,x
1 block t faulted 1 ; held 0 ["x"] ; left [] ; block b faulted 1 ; held 0 [1] ; left [] ; block out faulted 1 ; record []
1 block t faulted 1 ; held 0 ["x"] ; left [1] ; block b faulted 1 ; held 0 [] ; left [] ; block out faulted 1 ; record []
"#;

/// Broadcasts.
pub const BROADCASTS: &str = r#"
broadcast to four
in* buffer, s broadcast, a action(), b action(), c action(), d action(), in => s, s => a, s => b, s => c, s => d
in,1 in,2 in,3
0 block s done ; port 0 ["1","2","3"] ; held 0 [] ; link 1 ["1","2","3"] ; link 4 ["1","2","3"] ; left [] ; block a done ; record ["1","2","3"] ; block b done ; record ["1","2","3"] ; block c done ; record ["1","2","3"] ; block d done ; record ["1","2","3"] ; quiet

bounded buffer misses elements
in* buffer, s broadcast, a action(), c buffer capacity 1, in => s, s => a, s -> c
in,1 in,2 in,3
1 block in done ; block s done ; held 0 [] ; left [] ; block a done ; record ["1","2","3"] ; block c open ; port 0 ["1"] ; held 0 [] ; left ["1"] ; quiet

a copy for each link that admits it
in* buffer, t transform(int), s broadcast, a action(), b action(), in => t, t => s, s => a when even, s => b when odd
in,1 in,2 in,3
0 block s done ; left [] ; block a done ; record [2] ; block b done ; record [1,3] ; quiet

a link that carries one copy
in* buffer, s broadcast, a action(), b action(), in => s, s => a max 1, s => b
in,1 in,2
1 block s done ; link 1 ["1"] ; link 2 ["1","2"] ; left [] ; block a open ; record ["1"] ; block b done ; record ["1","2"] ; quiet

links that carry some of the copies that they admit
in* transform(int), s broadcast, a action(), b action(), in => s, s => a when odd max 2, s => b max 3
in,1 in,2 in,3 in,4
1 block s done ; held 0 [] ; link 1 [1,3] ; link 2 [1,2,3] ; left [] ; block a open ; record [1,3] ; block b open ; record [1,2,3] ; quiet

room for one element
in* buffer, s broadcast capacity 1, a action(), b action(), in => s, s => a, s => b
in,1 in,2 in,3
0 block in done ; block s done ; block a done ; record ["1","2","3"] ; block b done ; record ["1","2","3"] ; quiet

nobody to give to
s* broadcast
s,1 s,2
0 block s done ; port 0 ["1","2"] ; held 0 [] ; left [] ; quiet

a fault behind the elements
in* buffer, t transform(int), s broadcast, a action(), b action(), in => t, t => s, s => a, s -> b
in,1 in,x
1 block t faulted 1 ; held 0 ["x"] ; left [] ; block s faulted 1 ; held 0 [] ; left [] ; block a faulted 1 ; record [1] ; block b open ; record [1] ; quiet
1 block t faulted 1 ; held 0 ["x"] ; left [] ; block s faulted 1 ; held 0 [] ; left [1] ; quiet
1 block t faulted 1 ; held 0 ["x"] ; left [1] ; block s faulted 1 ; held 0 [] ; left [] ; block a faulted 1 ; record [] ; block b open ; record [] ; quiet
"#;

/// A broadcast that gives each element twice to a join.
pub const PAIRED: &str = r#"
each element beside itself
in* buffer, s broadcast, j join, out action(), in => s, s => j, s => j port 1, j => out
in,1 in,2
0 block s done ; block j done ; held 0 [] ; held 1 [] ; block out done ; record [["1","1"],["2","2"]] ; quiet
"#;

/// Blocks that take one value.
pub const WRITE_ONCES: &str = r#"
write once takes one
w* write_once, a action(), w => a
w,7 w,8 w,9
1 block w done ; input ["8","9"] ; port 0 ["7"] ; held 0 [] ; link 0 ["7"] ; left [] ; block a done ; record ["7"] ; quiet

one value for each link
w* write_once, a action(), b action(), c action(), w => a, w => b, w -> c
w,7
1 block w done ; input [] ; link 0 ["7"] ; link 1 ["7"] ; link 2 ["7"] ; left [] ; block a done ; record ["7"] ; block b done ; record ["7"] ; block c open ; record ["7"] ; quiet

a link that has carried the value ends plainly
w* write_once, a action(), b action(), w => a max 1, w => b
w,7
1 block w done ; link 0 ["7"] ; link 1 ["7"] ; left [] ; block a open ; record ["7"] ; block b done ; record ["7"] ; quiet

a source keeps what is declined
in* buffer, w write_once, a action(), in => w, w => a
in,7 in,8 in,9
1 block in completing ; left ["8","9"] ; block w done ; port 0 ["7"] ; held 0 [] ; left [] ; block a done ; record ["7"] ; quiet

a link that does not admit it
in* buffer, t transform(int), w write_once, a action(), b action(), in => t, t => w, w => a when even, w => b
in,7
0 block t done ; block w done ; left [] ; block a done ; record [] ; block b done ; record [7] ; quiet

completed before a value came
in* buffer, w write_once, a action(), in => w, w => a
none
0 block in done ; block w done ; port 0 [] ; left [] ; block a done ; record [] ; quiet
"#;

/// Joins that take what comes.
pub const JOINS: &str = r#"
greedy join leaves
a* buffer, b* buffer, j join ports 2, out action(), a -> j, b -> j port 1, j -> out
a,1 a,2 a,3 b,9
1 block a done ; block b done ; block j open ; port 0 ["1","2","3"] ; held 0 ["2","3"] ; port 1 ["9"] ; held 1 [] ; left [] ; block out open ; record [["1","9"]] ; quiet

a pair for each
a* buffer, b* buffer, j join, out action(), a => j, b => j port 1, j => out
a,1 b,x a,2 b,y
0 block a done ; block b done ; block j done ; held 0 [] ; held 1 [] ; left [] ; block out done ; record [["1","x"],["2","y"]] ; quiet

three ports
a* buffer, b* buffer, c* buffer, j join ports 3, out action(), a => j, b => j port 1, c => j port 2, j => out
a,1 a,2 b,3 b,4 c,5 c,6
0 block j done ; held 0 [] ; held 1 [] ; held 2 [] ; block out done ; record [["1","3","5"],["2","4","6"]] ; quiet

three ports, of which one has less
a* buffer, b* buffer, c* buffer, j join ports 3, out action(), a -> j, b -> j port 1, c -> j port 2, j -> out
a,1 a,2 b,3 c,4 c,5
1 block j open ; port 0 ["1","2"] ; held 0 ["2"] ; held 1 [] ; port 2 ["4","5"] ; held 2 ["5"] ; left [] ; block out open ; record [["1","3","4"]] ; quiet

room for one message at each port
a* buffer, b* buffer, j join ports 2 capacity 1, out action(), a => j, b => j port 1, j => out
a,1 a,2 a,3 b,7 b,8 b,9
0 block a done ; block b done ; block j done ; block out done ; record [["1","7"],["2","8"],["3","9"]] ; quiet

room for one message, and no partner
a* buffer, b* buffer, j join ports 2 capacity 1, out action(), a -> j, b -> j port 1, j -> out
a,1 a,2 b,9
1 block a done ; block b done ; block j open ; port 0 ["1","2"] ; held 0 ["2"] ; held 1 [] ; left [] ; record [["1","9"]] ; quiet

rows that are added up
a* buffer, b* buffer, t transform(int), u transform(int), j join ports 2, out action(sum), a => t, b => u, t => j, u => j port 1, j => out
a,1 a,2 b,10 b,20
0 block j done ; block out done ; record [11,22] ; quiet

two links into one port
a* buffer, b* buffer, c* buffer, t transform(len), u transform(len), v transform(int), j join ports 2, out action(), a => t, b => u, c => v, t -> j, u -> j, v -> j port 1, j -> out
a,x b,y c,7 c,8
1 block j open ; port 0 [1,1] ; held 0 [] ; port 1 [7,8] ; held 1 [] ; block out open ; record [[1,7],[1,8]] ; quiet

a fault at one source
a* buffer, b* buffer, t transform(int), j join ports 2, out action(), a => t, t => j, b => j port 1, j => out
a,x b,9
1 block t faulted 1 ; held 0 ["x"] ; block j faulted 1 ; held 0 [] ; port 1 ["9"] ; held 1 ["9"] ; left [] ; block out faulted 1 ; record [] ; quiet
1 block b completing ; left ["9"] ; block t faulted 1 ; held 0 ["x"] ; block j faulted 1 ; held 0 [] ; port 1 [] ; held 1 [] ; left [] ; block out faulted 1 ; record [] ; quiet
"#;

/// Batched joins.
pub const BATCHED_JOINS: &str = r#"
batched join groups
l* buffer, r* buffer, j batched_join ports 2 size 3, out action(), l => j, r => j port 1, j => out
l,1 l,2 r,9
0 block l done ; block r done ; block j done ; held 0 [] ; held 1 [] ; left [] ; block out done ; record [[["1","2"],["9"]]] ; quiet

a remainder when all ports are completed
l* buffer, r* buffer, j batched_join size 3, out action(), l => j, r => j port 1, j => out
l,1 l,2 l,3 l,4
0 block j done ; port 0 ["1","2","3","4"] ; held 0 [] ; port 1 [] ; held 1 [] ; left [] ; block out done ; record [[["1","2","3"],[]],[["4"],[]]] ; quiet

a remainder that stays, since a port is open
l* buffer, r* buffer, j batched_join size 3, out action(), l => j, r -> j port 1, j => out
l,1 l,2 l,3 l,4
1 block j open ; port 0 ["1","2","3","4"] ; held 0 ["4"] ; held 1 [] ; left [] ; block out open ; record [[["1","2","3"],[]]] ; quiet

three ports
a* buffer, b* buffer, c* buffer, j batched_join ports 3 size 4, out action(), a => j, b => j port 1, c => j port 2, j => out
a,1 b,2 c,3
0 block j done ; held 0 [] ; held 1 [] ; held 2 [] ; left [] ; block out done ; record [[["1"],["2"],["3"]]] ; quiet

groups of one
l* buffer, r* buffer, j batched_join size 1, out action(), l => j, r => j port 1, j => out
r,1 r,2
0 block j done ; block out done ; record [[[],["1"]],[[],["2"]]] ; quiet

nothing to group
l* buffer, r* buffer, j batched_join size 2, out action(), l => j, r => j port 1, j => out
none
0 block j done ; held 0 [] ; held 1 [] ; left [] ; block out done ; record [] ; quiet

a fault, by which no short group is made
l* buffer, r* buffer, t transform(int), j batched_join size 2, out action(), l => t, t => j, r => j port 1, j => out
l,x r,9
1 block t faulted 1 ; held 0 ["x"] ; block j faulted 1 ; held 0 [] ; port 1 ["9"] ; held 1 ["9"] ; left [] ; block out faulted 1 ; record [] ; quiet
1 block r completing ; left ["9"] ; block t faulted 1 ; held 0 ["x"] ; block j faulted 1 ; held 0 [] ; port 1 [] ; held 1 [] ; left [] ; block out faulted 1 ; record [] ; quiet
"#;

/// Joins that take whole tuples.
pub const RESERVING: &str = r#"
broadcast beside a join
in* buffer, s broadcast, a action(), b action(), j join ports 2 greedy false, in => s, s => a, s => b, s -> j
in,1 in,2 in,3
1 all block in done ; input [] ; port 0 ["1","2","3"] ; held 0 [] ; link 0 ["1","2","3"] ; left [] ; block s done ; port 0 ["1","2","3"] ; held 0 [] ; link 1 ["1","2","3"] ; link 2 ["1","2","3"] ; link 3 [] ; left [] ; block a done ; port 0 ["1","2","3"] ; held 0 [] ; record ["1","2","3"] ; block b done ; port 0 ["1","2","3"] ; held 0 [] ; record ["1","2","3"] ; block j open ; port 0 [] ; held 0 [] ; port 1 [] ; held 1 [] ; left [] ; quiet

reserving join leaves
a* buffer, b* buffer, j join ports 2 greedy false, out action(), a -> j, b -> j port 1, j -> out
a,1 a,2 a,3 b,9
1 all block a completing ; input [] ; port 0 ["1","2","3"] ; held 0 [] ; link 0 ["1"] ; left ["2","3"] ; block b done ; input [] ; port 0 ["9"] ; held 0 [] ; link 1 ["9"] ; left [] ; block j open ; port 0 ["1"] ; held 0 [] ; port 1 ["9"] ; held 1 [] ; link 2 [["1","9"]] ; left [] ; block out open ; port 0 [["1","9"]] ; held 0 [] ; record [["1","9"]] ; quiet

three-port reserving join
a* buffer, b* buffer, c* buffer, j join ports 3 greedy false, out action(), a -> j, b -> j port 1, c -> j port 2, j -> out
a,1 a,2 b,3 b,4 b,5 c,6
1 block a completing ; link 0 ["1"] ; left ["2"] ; block b completing ; link 1 ["3"] ; left ["4","5"] ; block c done ; link 2 ["6"] ; left [] ; block j open ; port 0 ["1"] ; held 0 [] ; port 1 ["3"] ; held 1 [] ; port 2 ["6"] ; held 2 [] ; link 3 [["1","3","6"]] ; left [] ; block out open ; port 0 [["1","3","6"]] ; held 0 [] ; record [["1","3","6"]] ; quiet

a join behind a join
a* buffer, b* buffer, c* buffer, j join greedy false, k join greedy false, out action(), a => j, b => j port 1, c => k, j => k port 1, k => out
a,1 a,2 b,3 b,4 c,5 c,6
0 block a done ; block b done ; block c done ; block j done ; block k done ; held 0 [] ; held 1 [] ; block out done ; record [["5",["1","3"]],["6",["2","4"]]] ; quiet

a copy that a round reserves
in* buffer, s broadcast, b* buffer, j join greedy false, out action(), in -> s, s -> j, b -> j port 1, j -> out
in,1 in,2 b,9
1 block s open ; port 0 ["1","2"] ; block b done ; left [] ; block j open ; held 0 [] ; port 1 ["9"] ; held 1 [] ; left [] ; record [["1","9"]] ; quiet
1 block s open ; port 0 ["1","2"] ; block b done ; left [] ; block j open ; held 0 [] ; port 1 ["9"] ; held 1 [] ; left [] ; record [["2","9"]] ; quiet

one value for each join
w* write_once, b* buffer, c* buffer, j join greedy false, k join greedy false, x action(), y action(), w => j, w => k, b => j port 1, c => k port 1, j => x, k => y
w,7 b,1 c,2
0 block w done ; link 0 ["7"] ; link 1 ["7"] ; left [] ; block j done ; block k done ; block x done ; record [["7","1"]] ; block y done ; record [["7","2"]] ; quiet

a fault at one source
a* buffer, b* buffer, t transform(int), j join greedy false, out action(), a => t, t => j, b => j port 1, j => out
a,1 a,x b,8 b,9
1 block b completing ; left ["8","9"] ; block t faulted 1 ; held 0 ["x"] ; left [1] ; block j faulted 1 ; port 0 [] ; held 0 [] ; port 1 [] ; held 1 [] ; left [] ; block out faulted 1 ; record [] ; quiet
1 block b completing ; left ["9"] ; block t faulted 1 ; held 0 ["x"] ; left [] ; block j faulted 1 ; port 0 [1] ; port 1 ["8"] ; block out faulted 1 ; quiet
"#;

/// Joins that share their sources: which of them makes which tuple is open, and no tuple is torn.
pub const SHARED: &str = r#"
two joins share sources
a* buffer, b* buffer, j join ports 2 greedy false, k join ports 2 greedy false, x action(), y action(), a => j, a => k, b => j port 1, b => k port 1, j => x, k => y
a,a1 a,a2 a,a3 a,a4 a,a5 b,b1 b,b2 b,b3 b,b4 b,b5
0 block a done ; left [] ; block b done ; left [] ; block j done ; held 0 [] ; held 1 [] ; left [] ; block k done ; held 0 [] ; held 1 [] ; left [] ; block x done ; held 0 [] ; block y done ; held 0 [] ; quiet | ["a1","b1"] ["a2","b2"] ["a3","b3"] ["a4","b4"] ["a5","b5"]

two joins share sources, one with its ports crossed
a* transform(int), b* transform(int), j join greedy false, k join greedy false, x action(sum), y action(sum), a => j, a => k port 1, b => j port 1, b => k, j => x, k => y
a,1 a,2 a,3 b,10 b,20 b,30
0 block a done ; left [] ; block b done ; left [] ; block j done ; held 0 [] ; held 1 [] ; left [] ; block k done ; held 0 [] ; held 1 [] ; left [] ; block x done ; block y done ; quiet | 11 22 33
"#;

/// More joins, and joins with less room, that share their sources.
pub const CROWDED: &str = r#"
three joins share sources
a* buffer, b* buffer, j join greedy false, k join greedy false, l join greedy false, x action(), y action(), z action(), a => j, a => k, a => l, b => j port 1, b => k port 1, b => l port 1, j => x, k => y, l => z
a,a1 a,a2 a,a3 b,b1 b,b2 b,b3
0 block a done ; left [] ; block b done ; left [] ; block j done ; held 0 [] ; held 1 [] ; left [] ; block k done ; held 0 [] ; held 1 [] ; left [] ; block l done ; held 0 [] ; held 1 [] ; left [] ; block x done ; block y done ; block z done ; quiet | ["a1","b1"] ["a2","b2"] ["a3","b3"]

two joins with room for one message at each port
a* buffer, b* buffer, j join capacity 1 greedy false, k join capacity 1 greedy false, x action(), y action(), a => j, a => k, b => j port 1, b => k port 1, j => x, k => y
a,a1 a,a2 a,a3 b,b1 b,b2 b,b3
0 block a done ; left [] ; block b done ; left [] ; block j done ; held 0 [] ; held 1 [] ; left [] ; block k done ; held 0 [] ; held 1 [] ; left [] ; block x done ; block y done ; quiet | ["a1","b1"] ["a2","b2"] ["a3","b3"]
"#;

/// Inputs that end with a fault, as no text can say.
pub const FAULTS: &str = r#"
faulting input
a* buffer, out action(), a => out
a,1 a!5
1 block a faulted 5 ; left [] ; block out faulted 5 ; record ["1"] ; quiet
1 block a faulted 5 ; left ["1"] ; block out faulted 5 ; record [] ; quiet

a faulting input with links for each
in* buffer, b buffer capacity 1, c buffer capacity 1, out action(), in => b, in => c, b => out
in,1 in,2 in,3 in,4 in!5
1 block in faulted 5 ; block b faulted 5 ; block c faulted 5 ; block out faulted 5

a fault while another link waits
in* buffer, b action(int) capacity 1, c buffer capacity 1, in => b, in => c
in,x in,1 in,2 in,3 in!7
1 block in faulted 7 ; block b faulted 1 ; block c faulted 7
1 block in faulted 7 ; block b faulted 7 ; block c faulted 7

fault at each event
a* buffer, b* buffer, j join ports 2 greedy false, out action(), a => j, b -> j port 1, j => out
a,1 a,2 a!9 b,3 b,4
1 block a faulted 9 ; block j faulted 9 ; port 0 [] ; held 0 [] ; port 1 [] ; held 1 [] ; block out faulted 9 ; record [] ; quiet
1 block a faulted 9 ; block j faulted 9 ; port 0 ["1"] ; held 0 [] ; port 1 ["3"] ; held 1 [] ; block out faulted 9 ; record [] ; quiet
1 block a faulted 9 ; block j faulted 9 ; port 0 ["1"] ; held 0 [] ; port 1 ["3"] ; held 1 [] ; block out faulted 9 ; record [["1","3"]] ; quiet
1 block a faulted 9 ; block j faulted 9 ; port 0 ["1","2"] ; held 0 [] ; port 1 ["3","4"] ; held 1 [] ; block out faulted 9 ; record [] ; quiet
1 block a faulted 9 ; block j faulted 9 ; port 0 ["1","2"] ; held 0 [] ; port 1 ["3","4"] ; held 1 [] ; block out faulted 9 ; record [["1","3"]] ; quiet
1 block a faulted 9 ; block j faulted 9 ; port 0 ["1","2"] ; held 0 [] ; port 1 ["3","4"] ; held 1 [] ; block out faulted 9 ; record [["1","3"],["2","4"]] ; quiet
"#;

/// All that texts can say.
pub const TABLES: &[&str] = &[
    CHAINS,
    LINKS,
    WORKS,
    BATCHES,
    BROADCASTS,
    PAIRED,
    WRITE_ONCES,
    JOINS,
    BATCHED_JOINS,
    RESERVING,
    SHARED,
    CROWDED,
];
