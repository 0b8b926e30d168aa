//! What is printed: its form, what may have been meant, and all that is wrong with a text beside the first.
use crate::check::{has_cases, head_and_lines, is_due};
use crate::told::{begins, lines_of, printed};
use flow_explain::Style;

/// Behind `case` stand the lines of a network, between which ' ; ' stands, and below that all that is printed of it. What turns
/// the direction of a line is not shown as it is. A tab is one column, an accented letter too, and a wide character is two.
const FORMS: &str = "
case block = [] ; [[link]] ; form = \"a\" ; to = \"b\"
net:4:1: error: link 0 has a key \"form\", which links do not have. Did you mean \"from\"?
 4 | form = \"a\"
   | ^^^^
   = 2 UnknownKey link 0
net:5:6: error: link 0 leads to \"b\", and no block has that name.
 5 | to = \"b\"
   |      ^^^
   = 8 Plan 3 UnknownBlock link 0
net: refused, with 2 errors

case block = []
net: accepted

case block = [] ; \"\u{202e}a\u{2066}\" = \"\u{200f}\"
net:3:1: error: the network has a key \"\\u{202e}a\\u{2066}\", which networks do not have.
 3 | \"\\u{202e}a\\u{2066}\" = \"\\u{200f}\"
   | ^^^^^^^^^^^^^^^^^^^
   = 2 UnknownKey top
net: refused, with 1 error

case block = [] ; \"é日\"\t= 1
net:3:1: error: the network has a key \"é日\", which networks do not have.
 3 | \"é日\" = 1
   | ^^^^^
   = 2 UnknownKey top
net: refused, with 1 error

case block = [{name = \"日本\", kind = 3}]
net:2:31: error: \"kind\" of block 0 \"日本\" is to be the word for a kind of block in quotes, and is 3.
 2 | block = [{name = \"日本\", kind = 3}]
   |                                 ^
   = 4 WrongType block 0
net:2:18: error: \"日本\" is no name: a name has 1 to 64 letters, digits, \"_\", \"-\" and \".\".
 2 | block = [{name = \"日本\", kind = 3}]
   |                  ^^^^^^
   = 8 Plan 6 BadOption block 0
net: refused, with 2 errors
";

#[test]
fn flaws_are_printed_with_their_lines(rt: HostRuntime) {
    has_cases(&rt, FORMS, 5);
    for case in FORMS.split("\ncase ").skip(1) {
        let (lines, wanted) = head_and_lines(case);
        let text = lines_of(&rt, rt.alloc(), lines);
        let (_, told) = printed(&rt, rt.alloc(), text.as_bytes(), Style::Full);
        is_due(&rt, case, wanted, told.as_str());
    }
}

/// Behind `case` stand the lines of a network, between which ' ; ' stands, and below that how the lines begin that are printed
/// of it in the short style. All that is wrong is told, the first for a run in front of the others, which stand in the order of
/// the text. Where a block has no name, nothing is said of links that may mean it.
const SHORT: &str = r#"
case block = []
case blok = []
net:2:1: error: the network has a key "blok", which networks do not have. Did you mean "block"?
case block = [] ; from = 1
net:3:1: error: the network has a key "from", which networks do not have. It is a key of links.
case block = [{ordered = true}]
net:2:11: error: block 0 has a key "ordered", which blocks do not have. It is not built yet.
net:2:10: error: block 0 has no key "name", which all blocks have.
net:2:10: error: block 0 has no key "kind", which all blocks have.
case block = [{name = "j", kind = "join", gredy = false}]
net:2:38: error: block 0 "j" has a key "gredy", which blocks do not have. Did you mean "greedy"?
case block = [{name = "j", kind = "join", greedy = "no"}]
net:2:47: error: "greedy" of block 0 "j" is to be true or false, and is a text.
case block = [{name = "a", kind = "batch", size = 1, greedy = false}]
net:2:49: error: block 0 "a" is a batch, which has no "greedy".
case block = [{name = "a", kind = "buffer"}, {name = "j", kind = "join", greedy = false}] ; link = [{from = "a", to = "j"}, {from = "a", to = "j", port = 1}]
net:3:41: error: links 0 and 1 lead from "a" to two ports of block 1 "j", which reserves: each port needs sources of its own.
case block = [{name = "a", kind = "transfrom"}]
net:2:30: error: "transfrom" is no kind of block. Did you mean "transform"?
case block = [{name = "a", kind = "store"}]
net:2:30: error: "store" is no kind of block. The kinds are buffer, broadcast, write_once, action,
case block = [{name = "a", kind = "action", work = ["imt", "add", "id 1", "field 4096", "add +1", "add  1", " len"]}]
net:2:48: error: "imt" is no step. Did you mean "int"?
net:2:55: error: "add" is no step. "add" needs a number, as in "add 1".
net:2:62: error: "id 1" is no step. "id" stands alone.
net:2:70: error: "field 4096" is no step. The number of "field" is from 0 to 4095.
net:2:84: error: "add +1" is no step. Its number is a minus sign or none, and digits.
net:2:94: error: "add  1" is no step. One blank stands between "add" and its number.
net:2:104: error: " len" is no step. Write "len" without a blank in front of it or behind it.
case block = [{name = "in", kind = "buffer", input = true}, {name = "out", kind = "action", work = []}] ; link = [{from = "in", to = "oot", when = "evne"}]
net:3:42: error: "evne" is no predicate. Did you mean "even"?
net:3:28: error: link 0 leads to "oot", and no block has that name. Did you mean "out"?
case blocks = 1 ; block = [{name = "a", kind = "buffer", lanes = 1}, {name = "a", kind = "batch", size = 0}] ; link = [{from = "a", to = "a", max = 0}]
net:2:1: error: the network has a key "blocks"
net:3:40: error: block 0 "a" is a buffer, which has no "lanes".
net:3:60: error: block 1 is named "a", as block 0 is.
net:3:88: error: "size" of block 1 "a" is 0, and is to be 1 to 4096.
net:4:9: error: messages could go round for ever: "a" to "a".
net:4:38: error: "max" of link 0 is 0, and is to be 1 to 2147483647.
case block = [{nmae = "a", kind = "buffer"}] ; link = [{from = "a", to = "a"}]
net:2:11: error: block 0 has a key "nmae", which blocks do not have. Did you mean "name"?
case [[blocks]] ; name = "in" ; kind = "buffer" ; input = true ; [[blocks]] ; name = "out" ; kind = "action" ; work = [] ; [[link]] ; from = "in" ; to = "out"
net:2:3: error: the network has a key "blocks", which networks do not have. Did you mean "block"?
case [[block]] ; name = "in" ; kind = "buffer" ; input = true ; [[blocks]] ; name = "out" ; kind = "action" ; work = [] ; [[link]] ; from = "in" ; to = "out"
net:6:3: error: the network has a key "blocks", which networks do not have. Did you mean "block"?
case [block] ; name = "in" ; kind = "buffer" ; input = true ; [[link]] ; from = "in" ; to = "out"
net:2:1: error: "block" of the network is to be an array of tables, each under a header in double brackets, and is a table.
case block = [{name = "a", kind = "action", work = ["ad 1", "if", "'add' 1", "\"len\"", " int\t"]}]
net:2:48: error: "ad 1" is no step. Did you mean "add"?
net:2:56: error: "if" is no step. There are id, int, text, add, mul, field, len, sum, reject, spread, upto, repeat.
net:2:62: error: "'add' 1" is no step. Did you mean "add"?
net:2:73: error: "\"len\"" is no step. Did you mean "len"?
net:2:84: error: " int\t" is no step. Write "int" without a blank in front of it or behind it.
case block = [{name = "d", kind = "buffer"}, {name = "e", kind = "action", work = []}] ; link = [{from = "d\t", to = "'e", when = "gt 5"}, {from = "d", to = "f", when = "le 5"}]
net:3:42: error: "gt 5" is no predicate. There are any, even, odd, lt, ge, eq.
net:3:17: error: link 0 comes from "d\t", and no block has that name. Did you mean "d"?
net:3:29: error: link 0 leads to "'e", and no block has that name. Did you mean "e"?
net:3:69: error: link 1 leads to "f", and no block has that name.
net:3:81: error: "le 5" is no predicate. There are any, even, odd, lt, ge, eq.
"#;

#[test]
fn hints_are_printed(rt: HostRuntime) {
    has_cases(&rt, SHORT, 19);
    for case in SHORT.split("\ncase ").skip(1) {
        let (lines, wanted) = head_and_lines(case);
        let text = lines_of(&rt, rt.alloc(), lines);
        let (_, told) = printed(&rt, rt.alloc(), text.as_bytes(), Style::Short);
        begins(&rt, case, told.as_str(), wanted);
    }
}
