//! Results in each form.
use crate::check::{are_due, bytes_of, check, given, has_rows, is_due, two_cells};
use crate::reports::IMPORT;
use flow_outcome::{ActionResults, ResultsForm, results_by_action, write_results};
use std::alloc::Global;
use std::process::Abort;

/// Values of each kind, at two actions.
const VALUES: &str = "block a done
port 0 []
held 0 []
record [-9223372036854775808,\"\",\"a,b\",\"\\\"q\\\"\",\"\\\\x41\",\"\\x0a\\x1f\",[1,\"x\",[2,\"\\x7f\"]],[]]
block b done
port 0 []
held 0 []
left [7]
block c open
port 0 []
held 0 []
record [9223372036854775807]
quiet
";

const CSV: &str = "a,-9223372036854775808
a,
a,\"a,b\"
a,\"\"\"q\"\"\"
a,\\x41
a,\"
\u{1f}\"
a,1,x,\"[2,\"\"\\u007f\"\"]\"
a
c,9223372036854775807
";

const NAMED_CSV: &str = "block,value1,value2,value3
a,-9223372036854775808,,
a,,,
a,\"a,b\",,
a,\"\"\"q\"\"\",,
a,\\x41,,
a,\"
\u{1f}\",,
a,1,x,\"[2,\"\"\\u007f\"\"]\"
a,,,
c,9223372036854775807,,
";

const JSON_LINES: &str = r#"{"block":"a","value":-9223372036854775808}
{"block":"a","value":""}
{"block":"a","value":"a,b"}
{"block":"a","value":"\"q\""}
{"block":"a","value":"\\x41"}
{"block":"a","value":"\u000a\u001f"}
{"block":"a","value":[1,"x",[2,"\u007f"]]}
{"block":"a","value":[]}
{"block":"c","value":9223372036854775807}
"#;

const JSON: &str = r#"{
"a":[-9223372036854775808,"","a,b","\"q\"","\\x41","\u000a\u001f",[1,"x",[2,"\u007f"]],[]],
"c":[9223372036854775807]
}
"#;

/// Tests that this is written of a report, or said where nothing is.
fn is_written(
    rt: &(impl Abort + Print),
    alloc: Global,
    report: &[u8],
    names: &[&str],
    form: ResultsForm,
    due: &str,
) {
    let mut text: Vec<u8> = Vec::new(alloc);
    match write_results(alloc, report, names, form, &mut text) {
        Ok(()) => are_due(rt, due, due.as_bytes(), &text),
        Err(error) => {
            let told = given(rt, due, format!(in alloc; "{error}"));
            is_due(rt, due, due, told.as_str());
        }
    }
}

#[test]
fn results_come_in_four_forms(rt: HostRuntime) {
    let (alloc, values) = (rt.alloc(), VALUES.as_bytes());
    is_written(&rt, alloc, values, &[], ResultsForm::Csv, CSV);
    is_written(&rt, alloc, values, &[], ResultsForm::NamedCsv, NAMED_CSV);
    is_written(&rt, alloc, values, &[], ResultsForm::JsonLines, JSON_LINES);
    is_written(&rt, alloc, values, &[], ResultsForm::Json, JSON);
}

#[test]
fn results_of_blocks_by_name(rt: HostRuntime) {
    let (alloc, lines) = (rt.alloc(), ResultsForm::JsonLines);
    let due = "order_numbers,1001\norder_numbers,1002\norder_numbers,1003\n";
    is_written(
        &rt,
        alloc,
        IMPORT,
        &["order_numbers"],
        ResultsForm::Csv,
        due,
    );
    let due = "{\n\"labels\":[\"Ada Lovelace\",\"Hopper, Grace\",\"Zoë \\\"Zed\\\" Müller\"]\n}\n";
    is_written(&rt, alloc, IMPORT, &["labels"], ResultsForm::Json, due);
    let due = "the report has no block \"no\\nbody\"";
    is_written(&rt, alloc, IMPORT, &["labels", "no\nbody"], lines, due);
    let due = "block orders is no action, so it has no results";
    is_written(&rt, alloc, IMPORT, &["labels", "orders"], lines, due);
}

/// In each row an action, and how its results begin with names of columns. `~` is a line feed.
const BY_ACTION: &str = "
a | block,value1,value2,value3~a,-9223372036854775808,,~
c | block,value~c,9223372036854775807~
";

/// Tests that these are the results of the two actions, each with names of columns of its own.
fn are_of_both(rt: &(impl Abort + Print), alloc: Global, all: &[ActionResults<'_>]) {
    has_rows(rt, BY_ACTION, all.len());
    for (row, action) in BY_ACTION.lines().skip(1).zip(all) {
        let (name, front) = two_cells(rt, row);
        check(rt, row, action.name == name);
        check(
            rt,
            row,
            action.text.starts_with(&bytes_of(rt, alloc, front)),
        );
    }
}

/// All actions where none is named, and those that are named, in the order of the report.
#[test]
fn results_of_each_action(rt: HostRuntime) {
    let (alloc, values, form) = (rt.alloc(), VALUES.as_bytes(), ResultsForm::NamedCsv);
    let all = results_by_action(alloc, values, &[], form);
    are_of_both(&rt, alloc, &given(&rt, "all actions", all));
    let both = results_by_action(alloc, values, &["c", "a"], form);
    are_of_both(&rt, alloc, &given(&rt, "both by name", both));
}

/// Tests that there are no results of the block with this name.
fn is_refused(rt: &(impl Abort + Print), alloc: Global, report: &str, name: &str) {
    let refused = results_by_action(alloc, report.as_bytes(), &[name], ResultsForm::Csv);
    check(rt, name, refused.is_err());
}

/// An action by its name, a block that is none, and a report without an action.
#[test]
fn results_by_action_are_those_of_its_name(rt: HostRuntime) {
    let (alloc, values, form) = (rt.alloc(), VALUES.as_bytes(), ResultsForm::Csv);
    let alone = results_by_action(alloc, values, &["c"], form);
    match given(&rt, "c alone", alone).as_slice() {
        [action] => are_due(&rt, "c alone", b"c,9223372036854775807\n", &action.text),
        _ => check(&rt, "one action", false),
    }
    is_refused(&rt, alloc, VALUES, "b");
    is_refused(&rt, alloc, VALUES, "d");
    is_refused(&rt, alloc, "no report", "a");
    let none = results_by_action(alloc, b"quiet\n", &[], form);
    check(&rt, "no action", given(&rt, "no block", none).is_empty());
}
