//! Networks that are refused: each is explained by its fault, at the place where it stands.
use crate::check::{add_words, bytes_of, check, given, has_rows, number, two_cells};
use crate::told::{flaw_in, is_flawed, lines_of, unmarked};
use flow_spans::line_of;
use std::alloc::Global;
use std::process::Abort;

/// In each row the line of a refusal, the line of the text where the fault stands, and the text, as `bytes_of` reads it.
const WHOLE: &str = "
1 Syntax | 1 | format
1 Syntax | 2 | format = 1~format = 1~block = []~
1 Syntax | 3 | format = 1~block = []~# \u{ff}~
1 Syntax | 1 | \u{ff}
1 Syntax | 2 | format = 1~block = [
1 Syntax | 1 | format = 9223372036854775808~
1 Syntax | 2 | format = 2~[[block]~
1 Syntax | 1 | \u{ef}\u{bb}format = 1~block = []~
3 MissingKey top | 1 | nothing
3 MissingKey top | 1 | block = 3~strange = 1~
4 WrongType top | 1 | format = \"1\"~block = []~
4 WrongType top | 1 | format = 1.0~block = []~
4 WrongType top | 3 | ~~format = true~strange = 1~
7 BadFormat | 1 | format = 0~strange = 1~
7 BadFormat | 1 | format = 3~block = [{strange = 1}]~
7 BadFormat | 3 | block = 3~# one~format = -1~
7 BadFormat | 1 | format = 4294967297~block = []~
7 BadFormat | 2 | \u{ef}\u{bb}\u{bf}~format = 3~
";

/// In each row the line of a refusal, and a text without its first line, which names the format; ' ; ' stands for the
/// end of a line. What the fault is about stands in double angles; where nothing does, it is the start of the text.
const TEXTS: &str = r#"
# Keys that there are not.
2 UnknownKey top | block = [] ; <<exit>> = []
2 UnknownKey top | block = [] ; <<Format>> = 1
2 UnknownKey top | block = [] ; <<"">> = 1
2 UnknownKey block 0 | block = [{name = "a", kind = "buffer", <<capasity>> = 1}]
2 UnknownKey block 0 | block = [{<<sise>> = 1}]
2 UnknownKey block 0 | block = [{<<port>> = 1}]
2 UnknownKey block 0 | block = [{<<gredy>> = true}]
2 UnknownKey block 0 | block = [{<<ordered>> = true}]
2 UnknownKey block 0 | block = [{<<groups>> = 1}]
2 UnknownKey block 0 | block = [{<<output>> = true}]
2 UnknownKey block 2 | block = [{}, {}, {<<strange>> = 1}, {strange = 1}]
2 UnknownKey link 0 | block = [] ; link = [{<<ports>> = 1}]
2 UnknownKey link 1 | block = [] ; link = [{}, {<<strange>> = 1}]
# Keys that are required.
3 MissingKey top | # nothing else
3 MissingKey top | link = []
3 MissingKey block 0 | block = [<<{kind = "buffer"}>>, {name = "a", kind = "transfrom"}]
3 MissingKey block 0 | block = [<<{name = "a"}>>]
3 MissingKey block 1 | block = [{name = "a", kind = "buffer"}, <<{}>>]
3 MissingKey link 0 | block = [] ; link = [<<{to = "a"}>>]
3 MissingKey link 0 | block = [] ; link = [<<{from = "a"}>>]
3 MissingKey link 0 | block = [] ; link = [<<{port = 0}>>]
3 MissingKey link 1 | block = [] ; link = [{from = "a", to = "a"}, <<{}>>]
# Values of other types.
4 WrongType top | block = <<3>>
4 WrongType top | block = <<"[]">>
4 WrongType top | <<[block]>> ; name = "a" ; kind = "buffer"
4 WrongType top | block = [<<1>>]
4 WrongType top | block = [{name = "a", kind = "buffer"}, <<1>>]
4 WrongType top | block = [] ; link = <<3>>
4 WrongType top | block = [] ; link = [<<1>>]
4 WrongType block 0 | block = [{name = <<1>>, kind = "buffer"}]
4 WrongType block 0 | block = [{name = "a", kind = <<1>>}]
4 WrongType block 0 | block = [{name = "a", kind = <<"Buffer">>}]
4 WrongType block 0 | block = [{name = "a", kind = <<"transfrom">>}]
4 WrongType block 0 | block = [{name = "a", kind = <<"writeonce">>}]
4 WrongType block 0 | block = [{name = "a", kind = "buffer", input = <<"true">>}]
4 WrongType block 0 | block = [{name = "a", kind = "action", work = <<"id">>}]
4 WrongType block 0 | block = [{name = "a", kind = "action", work = ["id", <<2>>]}]
4 WrongType link 0 | block = [] ; link = [{from = <<1>>, to = "a"}]
4 WrongType link 0 | block = [] ; link = [{from = "a", to = <<0>>}]
4 WrongType link 0 | block = [] ; link = [{from = "a", to = "b", propagate = <<"true">>}]
4 WrongType link 1 | block = [] ; link = [{from = "a", to = "b"}, {from = "a", to = "b", propagate = <<1>>}]
4 WrongType block 0 | block = [{name = "a", kind = "buffer", capacity = <<"1">>}]
4 WrongType block 0 | block = [{name = "a", kind = "buffer", capacity = <<1.0>>}]
4 WrongType block 0 | block = [{name = "a", kind = "buffer", capacity = <<-1>>}]
4 WrongType block 0 | block = [{name = "a", kind = "buffer", capacity = <<4294967296>>}]
4 WrongType block 0 | block = [{name = "a", kind = "action", work = [], lanes = <<4294967296>>}]
4 WrongType block 0 | block = [{name = "a", kind = "batch", size = <<"1">>}]
4 WrongType block 0 | block = [{name = "a", kind = "batch", size = <<-1>>}]
4 WrongType link 0 | block = [] ; link = [{from = "a", to = "b", when = <<2>>}]
4 WrongType link 0 | block = [] ; link = [{from = "a", to = "b", when = <<["even"]>>}]
4 WrongType link 0 | block = [] ; link = [{from = "a", to = "b", max = <<true>>}]
4 WrongType link 0 | block = [] ; link = [{from = "a", to = "b", max = <<-1>>}]
4 WrongType link 0 | block = [] ; link = [{from = "a", to = "b", max = <<4294967296>>}]
4 WrongType block 0 | block = [{name = "a", kind = "buffer", ports = <<-1>>}]
4 WrongType block 0 | block = [{name = "a", kind = "join", greedy = <<0>>}]
4 WrongType block 0 | block = [{name = "a", kind = "buffer", greedy = <<"false">>}]
4 WrongType link 0 | block = [] ; link = [{from = "a", to = "b", port = <<"0">>}]
4 WrongType link 0 | block = [] ; link = [{from = "a", to = "b", port = <<4294967296>>}]
# Predicates that there are not.
6 BadWhen link 0 | block = [] ; link = [{from = "a", to = "b", when = <<"evn">>}]
6 BadWhen link 0 | block = [] ; link = [{from = "a", to = "b", when = <<"">>}]
6 BadWhen link 1 | link = [{from = "a", to = "b", when = "eq -0"}, {from = "a", to = "b", when = <<"lt">>}] ; block = []
# Blocks that are in no plan.
8 Plan 2 DuplicateName block 1 | block = [{name = "a", kind = "buffer"}, {name = <<"a">>, kind = "buffer"}]
8 Plan 6 BadOption block 0 | block = [<<{name = "a", kind = "action"}>>]
8 Plan 6 BadOption block 0 | block = [<<{name = "a", kind = "transform"}>>]
8 Plan 6 BadOption block 0 | block = [<<{name = "a", kind = "transform_many"}>>]
8 Plan 6 BadOption block 0 | block = [{name = "a", kind = "buffer", <<work>> = []}]
8 Plan 6 BadOption block 1 | block = [{name = "a", kind = "buffer"}, {name = <<"">>, kind = "buffer"}]
8 Plan 6 BadOption block 0 | block = [{name = <<"a b">>, kind = "buffer"}]
8 Plan 6 BadOption block 0 | block = [{name = <<"\u00e9">>, kind = "buffer"}]
8 Plan 6 BadOption block 0 | block = [{name = "a", kind = "buffer", capacity = <<0>>}]
8 Plan 6 BadOption block 0 | block = [{name = "a", kind = "buffer", capacity = <<2147483648>>}]
8 Plan 6 BadOption block 0 | block = [{name = "a", kind = "buffer", capacity = <<4294967295>>}]
8 Plan 6 BadOption block 0 | block = [{name = "a", kind = "buffer", <<lanes>> = 1}]
8 Plan 6 BadOption block 0 | block = [{name = "a", kind = "buffer", <<ports>> = 1}]
8 Plan 6 BadOption block 0 | block = [{name = "a", kind = "broadcast", <<work>> = []}]
8 Plan 6 BadOption block 0 | block = [{name = "a", kind = "write_once", <<capacity>> = 1}]
8 Plan 6 BadOption block 0 | block = [{name = "a", kind = "broadcast", capacity = <<0>>}]
8 Plan 4 Port link 0 | block = [{name = "a", kind = "buffer"}, {name = "b", kind = "broadcast"}] ; link = [{from = "a", to = "b", port = <<1>>}]
8 Plan 6 BadOption block 0 | block = [{name = "a", kind = "action", work = [], lanes = <<0>>}]
8 Plan 6 BadOption block 0 | block = [{name = "a", kind = "action", work = [], lanes = <<17>>}]
# Batches without a size, with a size out of range, and with less room than one.
8 Plan 6 BadOption block 0 | block = [<<{name = "a", kind = "batch"}>>]
8 Plan 6 BadOption block 0 | block = [{name = "a", kind = "batch", size = <<4097>>}]
8 Plan 6 BadOption block 0 | block = [{name = "a", kind = "batch", size = 1, <<work>> = []}]
8 Plan 6 BadOption block 0 | block = [{name = "a", kind = "batch", size = 1, <<lanes>> = 1}]
8 Plan 6 BadOption block 0 | block = [{name = "a", kind = "buffer", <<size>> = 1}]
8 Plan 6 BadOption block 0 | block = [{name = "a", kind = "transform_many", work = [], <<size>> = 1}]
8 Plan 6 BadOption block 2 | block = [{name = "in", kind = "buffer", input = true}, {name = "t", kind = "transform", work = ["int"]}, {name = "b", kind = "batch", size = <<0>>}, {name = "out", kind = "action", work = []}]
8 Plan 7 CapacityBelowSize block 2 | block = [{name = "in", kind = "buffer", input = true}, {name = "t", kind = "transform", work = ["int"]}, {name = "b", kind = "batch", size = 3, capacity = <<2>>}, {name = "out", kind = "action", work = []}]
8 Plan 6 BadOption block 1 | block = [{name = "a", kind = "batch", size = 3, capacity = 2}, <<{name = "b", kind = "batch"}>>]
# Blocks of kinds that take each message at once, or by rules of their own.
8 Plan 6 BadOption block 0 | block = [{name = "a", kind = "buffer", <<greedy>> = true}]
8 Plan 6 BadOption block 0 | block = [{name = "a", kind = "action", work = [], <<greedy>> = false}]
8 Plan 6 BadOption block 0 | block = [{name = "a", kind = "batch", size = 1, <<greedy>> = false}]
8 Plan 6 BadOption block 0 | block = [{name = "a", kind = "batched_join", size = 1, <<greedy>> = true}]
# Joins that reserve, with a block that leads to two of their ports. Another join may have it, and one port may have it twice.
8 Plan 8 SharedSource block 1 | block = [{name = "s", kind = "buffer"}, {name = "j", kind = "join", greedy = false}] ; link = [{from = "s", to = "j"}, {from = <<"s">>, to = "j", port = 1}]
8 Plan 8 SharedSource block 2 | block = [{name = "s", kind = "buffer"}, {name = "t", kind = "buffer"}, {name = "j", kind = "join", greedy = false}] ; link = [{from = "s", to = "j", port = 1}, {from = "s", to = "j", port = 1}, {from = "t", to = "j"}, {from = <<"s">>, to = "j", port = 0}]
8 Plan 8 SharedSource block 3 | block = [{name = "s", kind = "buffer"}, {name = "t", kind = "buffer"}, {name = "j", kind = "join", greedy = false}, {name = "k", kind = "join", greedy = false}] ; link = [{from = "s", to = "j"}, {from = "s", to = "k", port = 1}, {from = "t", to = "j", port = 1}, {from = <<"s">>, to = "k"}]
# That comes before a circle, and behind a capacity below a size.
8 Plan 8 SharedSource block 1 | block = [{name = "s", kind = "buffer"}, {name = "j", kind = "join", greedy = false}] ; link = [{from = "j", to = "s"}, {from = "s", to = "j"}, {from = <<"s">>, to = "j", port = 1}]
8 Plan 7 CapacityBelowSize block 2 | block = [{name = "s", kind = "buffer"}, {name = "j", kind = "join", greedy = false}, {name = "b", kind = "batch", size = 3, capacity = <<2>>}] ; link = [{from = "s", to = "j"}, {from = "s", to = "j", port = 1}]
# Links that are in no plan. Only the first port is there.
8 Plan 4 Port link 0 | block = [{name = "a", kind = "buffer"}, {name = "b", kind = "buffer"}] ; link = [{from = "a", to = "b", port = <<1>>}]
8 Plan 4 Port link 1 | block = [{name = "a", kind = "buffer"}, {name = "b", kind = "buffer", ports = 2}] ; link = [{from = "a", to = "b", port = 0}, {from = "a", to = "b", port = <<1>>}]
8 Plan 6 BadOption block 1 | block = [{name = "a", kind = "buffer"}, {name = "b", kind = "buffer", <<ports>> = 2}] ; link = [{from = "a", to = "b", port = 0}]
8 Plan 6 BadOption link 0 | block = [{name = "a", kind = "buffer"}] ; link = [{from = "a", to = "a", max = <<0>>}]
8 Plan 6 BadOption link 0 | block = [{name = "a", kind = "buffer"}] ; link = [{from = "a", to = "a", max = <<2147483648>>}]
# With two faults the first in order counts.
# An unknown key comes before one that is missing, wherever they stand.
2 UnknownKey link 0 | block = [{}] ; link = [{<<strange>> = 1}]
2 UnknownKey block 0 | block = [{<<strange>> = 1, name = 1, kind = 1}]
# A missing key comes before a wrong type.
3 MissingKey link 0 | block = [{name = 1, kind = "buffer"}] ; link = [<<{from = "a"}>>]
3 MissingKey block 1 | block = [{name = "a", kind = "no"}, <<{}>>]
3 MissingKey top | link = 3
3 MissingKey block 0 | block = [<<{capacity = -1}>>]
3 MissingKey link 0 | block = [] ; link = [<<{when = 2}>>]
3 MissingKey link 0 | block = [] ; link = [<<{max = -1}>>]
# A wrong type comes before a function that is none.
4 WrongType link 0 | block = [{name = "a", kind = "action", work = ["no"]}] ; link = [{from = <<1>>, to = "a"}]
4 WrongType block 1 | block = [{name = "a", kind = "action", work = ["no"]}, {name = "a", kind = <<"no">>}]
4 WrongType block 0 | block = [{name = "a", kind = "action", work = ["no", <<1>>]}]
# A wrong type comes before a predicate that is none.
4 WrongType link 1 | block = [] ; link = [{from = "a", to = "b", when = "no"}, {from = "a", to = "b", max = <<-1>>}]
# A function that is none comes before a predicate that is none.
5 BadWork block 0 | block = [{name = "a", kind = "action", work = [<<"">>]}] ; link = [{from = "a", to = "b", when = "no"}]
# A predicate that is none comes before what is wrong with the plan.
6 BadWhen link 0 | block = [{name = "a", kind = "action"}] ; link = [{from = "a", to = "b", when = <<"no">>}]
# What is read as it should be, in networks that are in no plan for another cause.
8 Plan 2 DuplicateName block 1 | block = [{name = "a", kind = "buffer", capacity = 1}, {name = <<"a">>, kind = "buffer"}]
8 Plan 3 UnknownBlock link 0 | block = [] ; link = [{from = <<"a">>, to = "b", when = "any"}]
8 Plan 3 UnknownBlock link 0 | block = [] ; link = [{from = <<"a">>, to = "b", max = 4294967295}]
# A function that is none comes before what is wrong with the plan, and is looked at where its kind has none too.
5 BadWork block 1 | block = [{name = "a", kind = "buffer"}, {name = "a", kind = "buffer", work = [<<"no">>]}]
5 BadWork block 0 | block = [{name = "a", kind = "action", work = [<<"no">>]}, {name = "b", kind = "action", work = ["no"]}]
# Within a pass the top comes first, the blocks then, the links last.
2 UnknownKey top | <<strange>> = 1 ; block = [{strange = 1}]
2 UnknownKey block 1 | link = [{strange = 1}] ; block = [{}, {<<strange>> = 1}]
3 MissingKey top | link = [{}]
3 MissingKey block 1 | link = [{}] ; block = [{name = "a", kind = "buffer"}, <<{name = "a"}>>]
4 WrongType top | link = [<<1>>] ; block = [{name = 1, kind = "buffer"}]
4 WrongType block 0 | link = [{from = 1, to = 1}] ; block = [{name = <<1>>, kind = "buffer"}]
# What is no array of tables is skipped until its type is looked at.
4 WrongType top | block = [{strange = 1}, <<1>>]
2 UnknownKey link 0 | block = [1, {strange = 1}] ; link = [{<<strange>> = 1}]
4 WrongType top | block = [{}, <<1>>] ; link = [{from = "a", to = "a", propagate = 1}]
"#;

/// In each row what stands for the function of an action, with the text in it that is no step.
const WORKS: &str = r#"
[<<"addd 1">>]
["int", <<"addd 1">>]
["int", <<"">>]
[<<"Int">>]
[<<" int">>]
[<<"int ">>]
[<<"id 1">>]
[<<"add">>]
[<<"add ">>]
[<<"add  1">>]
[<<"add +1">>]
[<<"add -">>]
[<<"add 1.0">>]
[<<"add 9223372036854775808">>]
[<<"add -9223372036854775809">>]
["id", 'id', <<"field">>, "int"]
[<<"field -1">>]
[<<'field 4096'>>]
[<<"repeat -1">>]
[<<"repeat 1001">>]
["id","id","id","id","id","id","id","id","id","id","id","id","id","id","id","id",<<"id">>]
"#;

/// In each row the line of a refusal, and a network under headers, with what the fault is about in double angles.
const HEADERS: &str = r#"
2 UnknownKey block 0 | [[block]] ; name = "in" ; kind = "buffer" ; <<capasity>> = 3
2 UnknownKey block 1 | [[block]] ; name = "in" ; kind = "buffer" ; [[ "block" ]] ; kind = "buffer" ; name = "out" ; <<"wrok">> = []
2 UnknownKey link 1 | block = [] ; [[link]] ; from = "a" ; to = "b" ; [[link]] ; <<form>> = "a" ; to = "b"
2 UnknownKey block 0 | [[block]] ; name = "in" ; kind = "buffer" ; <<more.of.it>> = 3
2 UnknownKey block 0 | [[block]] ; name = "in" ; kind = "buffer" ; [<<block.more>>] ; of = 3
2 UnknownKey top | block = [] ; [<<strange>>] ; of = 3
2 UnknownKey top | block = [] ; [[<<strange.still>>]] ; of = 3
2 UnknownKey top | block = [] ; <<blok.name>> = "a"
3 MissingKey block 1 | [[block]] ; name = "in" ; kind = "buffer" ; <<[[block]]>> ; name = "out"
3 MissingKey link 1 | block = [] ; [[link]] ; from = "a" ; to = "b" ; <<[[link]]>> ; to = "b"
4 WrongType block 1 | [[block]] ; name = "in" ; kind = "buffer" ; [[block]] # another ; name = "t" ; kind = <<"transfrom">> # a word
4 WrongType block 0 | [[block]] ; name = "in" ; kind = "buffer" ; capacity = <<-1>>
4 WrongType block 0 | [[block]] ; name = "in" ; kind = "buffer" ; input = <<1979-05-27 07:32:00>>
4 WrongType block 0 | [[block]] ; name = <<[["x]", 'y}'], {z = "{"}]>> ; kind = "buffer"
4 WrongType top | [[block]] ; name = "in" ; kind = "buffer" ; <<[link]>> ; from = "in" ; to = "in"
4 WrongType top | [[block]] ; name = "in" ; kind = "buffer" ; <<[[link.from]]>> ; to = "in"
6 BadWhen link 0 | block = [] ; [[link]] ; from = "a" ; to = "b" ; when = <<'evn'>>
8 Plan 2 DuplicateName block 1 | [[block]] ; name = "t" ; kind = "buffer" ; [[block]] ; name = <<"t">> ; kind = "buffer"
8 Plan 3 UnknownBlock link 0 | [[block]] ; name = "out" ; kind = "buffer" ; [[link]] ; from = "out" ; to = <<"oot">>
8 Plan 6 BadOption block 0 | [[block]] ; name = "t" ; kind = "buffer" ; <<work>> = [ ; "id" ]
5 BadWork block 0 | [[block]] ; name = "t" ; kind = "action" ; work = [ # steps ] ; "id", # one, ; <<"repeat 1001">>, ; ]
"#;

/// Three buffers, an action and an input.
const FIVE: &str = r#"block = [
    {name = "a", kind = "buffer"}, {name = "b", kind = "buffer"}, {name = "c", kind = "buffer"},
    {name = "out", kind = "action", work = []}, {name = "in", kind = "buffer", input = true},
]"#;

/// In each row the line of a refusal, links among those five, and the lines at one of which the fault is told: the
/// header of the first link is line 7, that of the second line 11.
const LINKS: &str = "
8 Plan 3 UnknownBlock link 0 | no>b | 8
8 Plan 3 UnknownBlock link 1 | a>b b>oot | 13
8 Plan 5 NoOutput link 1 | a>b out>c | 12
8 Plan 9 Cycle | a>b b>a | 7 11
8 Plan 9 Cycle | b>b | 7
8 Plan 9 Cycle | in>out c>a a>b b>c | 11 15 19
8 Plan 3 UnknownBlock link 1 | out>b a>oot | 13
8 Plan 5 NoOutput link 1 | a>in out>b | 12
8 Plan 9 Cycle | a>b b>a c>b | 7 11
";

// Tests that the first flaw of a text has this fault and stands on one of these lines.
fn is_told_on(
    rt: &(impl Abort + Print),
    alloc: Global,
    row: &str,
    text: &[u8],
    line: &str,
    wanted: &str,
) {
    let span = flaw_in(rt, alloc, row, text, line);
    let text = text.strip_prefix(b"\xef\xbb\xbf").unwrap_or(text);
    let found = line_of(text, span.start);
    check(rt, row, is_among(rt, wanted, found));
}

// Whether a number is one of these.
fn is_among(rt: &(impl Abort + Print), numbers: &str, found: usize) -> bool {
    for digits in numbers.split(" ") {
        if number(rt, digits) == found {
            return true;
        }
    }
    false
}

#[test]
fn whole_texts_are_told_on_their_lines(rt: HostRuntime) {
    has_rows(&rt, WHOLE, 18);
    for row in WHOLE.lines().skip(1) {
        let (line, others) = two_cells(&rt, row);
        let (wanted, words) = two_cells(&rt, others);
        let text = bytes_of(&rt, rt.alloc(), words);
        is_told_on(&rt, rt.alloc(), row, &text, line, wanted);
    }
}

// Tests that a text is flawed so at what is marked in it.
fn is_flawed_there(rt: &(impl Abort + Print), alloc: Global, row: &str, marked: &str, line: &str) {
    let (text, span) = unmarked(rt, alloc, marked);
    is_flawed(rt, alloc, row, text.as_bytes(), line, span);
}

// Tests each row of a table, in which the line of a refusal stands before what makes a marked text.
fn check_rows(rt: &(impl Abort + Print), alloc: Global, table: &str) {
    for row in table.lines().skip(1) {
        if row.starts_with("#") {
            continue;
        }
        let (line, others) = two_cells(rt, row);
        let marked = lines_of(rt, alloc, others);
        is_flawed_there(rt, alloc, row, marked.as_str(), line);
    }
}

#[test]
fn faults_are_told_where_they_stand(rt: HostRuntime) {
    has_rows(&rt, TEXTS, 152);
    check_rows(&rt, rt.alloc(), TEXTS);
}

#[test]
fn faults_under_headers_are_told_where_they_stand(rt: HostRuntime) {
    has_rows(&rt, HEADERS, 21);
    check_rows(&rt, rt.alloc(), HEADERS);
}

#[test]
fn steps_that_there_are_not_are_told(rt: HostRuntime) {
    let alloc = rt.alloc();
    has_rows(&rt, WORKS, 21);
    for work in WORKS.lines().skip(1) {
        let marked = format!(in alloc;
            "format = 1\nblock = [{{name = \"a\", kind = \"action\", work = {work}}}]\n"
        );
        let marked = given(&rt, work, marked);
        is_flawed_there(&rt, alloc, work, marked.as_str(), "5 BadWork block 0");
    }
}

// The five blocks with these links, each written as `a>b`.
fn linked(rt: &(impl Abort + Print), alloc: Global, links: &str) -> String {
    let mut text = given(rt, links, String::from_str(alloc, "format = 1\n"));
    add_words(rt, &mut text, FIVE);
    for link in links.split(" ") {
        let (from, to) = link.split_once(">").unwrap_or(("", link));
        add_words(rt, &mut text, "\n\n[[link]]\nfrom = \"");
        add_words(rt, &mut text, from);
        add_words(rt, &mut text, "\"\nto = \"");
        add_words(rt, &mut text, to);
        add_words(rt, &mut text, "\"");
    }
    text
}

#[test]
fn links_are_told_on_their_lines(rt: HostRuntime) {
    has_rows(&rt, LINKS, 9);
    for row in LINKS.lines().skip(1) {
        let (line, others) = two_cells(&rt, row);
        let (links, wanted) = two_cells(&rt, others);
        let text = linked(&rt, rt.alloc(), links);
        is_told_on(&rt, rt.alloc(), row, text.as_bytes(), line, wanted);
    }
}

/// In each row how many buffers are in a chain, how many links lead to no block, the line of the refusal, and the line of the
/// text. A block is three lines, and so is a link; the first block begins on line 2.
const LARGE: &str = "
257 | 1 | 8 Plan 1 Limit | 770
1 | 1025 | 8 Plan 1 Limit | 3077
1 | 1024 | 8 Plan 3 UnknownBlock link 0 | 7
256 | 769 | 8 Plan 3 UnknownBlock link 255 | 1537
256 | 770 | 8 Plan 1 Limit | 3842
";

// So many buffers in a chain, behind the line of the format.
fn buffers(rt: &(impl Abort + Print), alloc: Global, count: usize) -> String {
    let mut text = given(rt, "buffers", String::from_str(alloc, "format = 1\n"));
    for number in 0..count {
        let block = format!(in alloc; "[[block]]\nname = \"b{number}\"\nkind = \"buffer\"\n");
        add_words(rt, &mut text, given(rt, "a block", block).as_str());
    }
    text
}

// Adds the links of a chain of so many buffers.
fn add_chain(rt: &(impl Abort + Print), alloc: Global, text: &mut String, count: usize) {
    for number in 1..count {
        let before = number.saturating_sub(1);
        let link = format!(in alloc; "[[link]]\nfrom = \"b{before}\"\nto = \"b{number}\"\n");
        add_words(rt, text, given(rt, "a link", link).as_str());
    }
}

// Adds so many links from the first buffer to no block.
fn add_strays(rt: &impl Abort, text: &mut String, count: usize) {
    for _ in 0..count {
        add_words(rt, text, "[[link]]\nfrom = \"b0\"\nto = \"no\"\n");
    }
}

#[test]
fn limits_are_told_at_what_is_too_much(rt: HostRuntime) {
    let alloc = rt.alloc();
    has_rows(&rt, LARGE, 5);
    for row in LARGE.lines().skip(1) {
        let (chain, others) = two_cells(&rt, row);
        let (strays, others) = two_cells(&rt, others);
        let (line, wanted) = two_cells(&rt, others);
        let mut text = buffers(&rt, alloc, number(&rt, chain));
        add_chain(&rt, alloc, &mut text, number(&rt, chain));
        add_strays(&rt, &mut text, number(&rt, strays));
        is_told_on(&rt, alloc, row, text.as_bytes(), line, wanted);
    }
}
