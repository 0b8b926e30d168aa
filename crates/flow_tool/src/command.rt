//! The commands and their arguments.
use clap::{Arg, ArgAction, Command, value_parser};
use std::alloc::{AllocError, Global};

const ABOUT: &str = "What is beside a run of flow_run, before it and after it.";

/// The version of both programs, `flow` and `flow_run`.
const VERSION: &str = "0.1.0";

const STATUSES: &str = "\
status:
  0     all is well
  1, 3  faults were found, or a run ended with this status
  2     wrong arguments, or an input that can't be read; standard error says why in a line
  4, 5  out of memory; a file or stream failed";

/// A command: its name, what it does, what stands below its help, and its arguments.
#[derive(Clone, Copy)]
struct Entry {
    name: &'static str,
    about: &'static str,
    below: &'static str,
    arguments: &'static [Argument],
}

/// An argument of a command.
#[derive(Clone, Copy)]
struct Argument {
    id: &'static str,
    form: Form,
    help: &'static str,
}

/// How an argument is given: as a word, which help has this name for, or by its own name.
#[derive(Clone, Copy)]
enum Form {
    /// It must be there.
    Needed(&'static str),
    /// It may be there.
    Optional(&'static str),
    /// A number of parts, which must be there.
    Parts(&'static str),
    /// As many words as are wanted.
    Words(&'static str),
    /// At least one word.
    SomeWords(&'static str),
    /// A word behind the argument's own name.
    Named(&'static str),
    /// The same, as often as is wanted.
    Repeated(&'static str),
    /// The argument's own name alone, which never stands beside these.
    Flag(&'static [&'static str]),
}

macro_rules! argument {
    ($id:literal, $form:expr, $help:literal) => {
        Argument {
            id: $id,
            form: $form,
            help: $help,
        }
    };
}

const NETWORK: Argument = argument!("network", Form::Needed("NET"), "The file with the network");

const REPORT: Argument = argument!(
    "report",
    Form::Needed("REPORT"),
    "The file with the report of a run, or - for standard input"
);

const CHECK: Entry = Entry {
    name: "check",
    about: "Tells what is wrong with a network and its records, and where",
    below: "\
Of a network that is accepted it tells what surely leads to status 1 or never does what was meant. The status is 1 where the
network or a record is refused.

example:
  flow check network.toml records.csv",
    arguments: &[
        NETWORK,
        argument!(
            "records",
            Form::Optional("RECORDS"),
            "The file with records, or - for standard input"
        ),
        argument!(
            "short",
            Form::Flag(&[]),
            "Prints a line for each thing that it tells"
        ),
    ],
};

const DRAW: Entry = Entry {
    name: "draw",
    about: "Draws a network, and what became of it",
    below: "\
With a report it tells what crossed each link, what is held and left, and how each block ended.

example:
  flow draw network.toml run.report
  flow draw --dot network.toml | dot -Tsvg > network.svg",
    arguments: &[
        NETWORK,
        argument!(
            "report",
            Form::Optional("REPORT"),
            "The file with the report of a run, or - for standard input"
        ),
        argument!("dot", Form::Flag(&[]), "Draws for Graphviz"),
    ],
};

const PAGE: Entry = Entry {
    name: "page",
    about: "Makes a page for a browser of a network, and of what became of it",
    below: "\
The page has the network as a picture. With a report it tells first why the run ended so, and of each block what it took, held,
gave and left, the first hundred of each list. It is one file, has no script, and asks for nothing from elsewhere.

example:
  flow page network.toml run.report > run.html",
    arguments: &[
        NETWORK,
        argument!(
            "report",
            Form::Optional("REPORT"),
            "The file with the report of a run, or - for standard input"
        ),
    ],
};

const WHY: Entry = Entry {
    name: "why",
    about: "Tells why a run ended with its status",
    below: "\
The status is that of the run. With its records, the first of them that alone faults as a block did is told too, with its line.

example:
  flow why network.toml run.report records.csv",
    arguments: &[
        NETWORK,
        REPORT,
        argument!(
            "records",
            Form::Optional("RECORDS"),
            "The file with the records of the run, or - for standard input"
        ),
    ],
};

const RESULTS: Entry = Entry {
    name: "results",
    about: "Prints what actions recorded",
    below: "\
With --files each action has a file of its own in FOLDER, with what would be printed of it alone, and the names of the files
are printed. The file is ACTION.csv, .jsonl or .json, with an _ in front of a name that begins with . or -. Names that differ
only in the case of letters are refused, and so is a file that is there already; nothing is written then.

example:
  flow results --header run.report ledger > ledger.csv
  flow_run network.toml 1 < records.csv | flow results --jsonl -
  flow results --header --files tables run.report",
    arguments: &[
        REPORT,
        argument!(
            "blocks",
            Form::Words("BLOCK"),
            "The actions whose results are printed, all where none is named"
        ),
        argument!(
            "csv",
            Form::Flag(&[]),
            "A row for each result, which is the default"
        ),
        argument!(
            "jsonl",
            Form::Flag(&["csv"]),
            "A JSON object for each result"
        ),
        argument!("json", Form::Flag(&["csv", "jsonl"]), "One JSON object"),
        argument!(
            "header",
            Form::Flag(&["jsonl", "json"]),
            "Begins with a row of names, and fills each row up to as many columns"
        ),
        argument!(
            "files",
            Form::Named("FOLDER"),
            "Writes a file for each action, in this folder"
        ),
        argument!(
            "force",
            Form::Flag(&[]),
            "Replaces files that are there already, but never REPORT"
        ),
    ],
};

const TRACE: Entry = Entry {
    name: "trace",
    about: "Tells where a value was: the blocks that took it and the links that it crossed",
    below: "\
VALUE is as the report prints it, or a text without its quotes. The status is 1 where it is nowhere.

example:
  flow trace run.report seven",
    arguments: &[
        REPORT,
        argument!("value", Form::Needed("VALUE"), "The value"),
    ],
};

const FEED: Entry = Entry {
    name: "feed",
    about: "Makes records of the rows of a CSV file",
    below: "\
Each COLUMN=INPUT makes a record `INPUT,text` of each row, in the order in which they are named. A COLUMN is a name of the
header or, without --header, a number from 1; # is the number of the row, from 1. The first row says how many fields each
has. A row with more or fewer, one that is not UTF-8 and one with a quote that is never closed are bad. The first bad row
ends the work with status 2, behind the records of the rows before it. With --bad the work goes on, and the status is 1 where
there were bad rows. Lines without anything are no rows.

example:
  flow feed --header orders.csv amount=orders customer=customers '#=rows' | flow_run network.toml 1 > run.report
  flow feed --header --where country=NL --bad bad.csv orders.csv amount=dutch > records.csv
  flow feed --header --key id orders.csv amount=orders | flow split 8 --by-key -",
    arguments: &[
        argument!(
            "rows",
            Form::Needed("FILE"),
            "The CSV file, or - for standard input"
        ),
        argument!(
            "columns",
            Form::SomeWords("COLUMN=INPUT"),
            "A column, and the input that its texts go to"
        ),
        argument!(
            "header",
            Form::Flag(&[]),
            "Takes the names of columns from the first row, which is no row then"
        ),
        argument!(
            "where",
            Form::Repeated("COLUMN=TEXT"),
            "Takes rows alone that have this text there; all must hold where there are several"
        ),
        argument!(
            "key",
            Form::Named("COLUMN"),
            "Writes key,INPUT,text with the text of this column as the key, for flow split --by-key"
        ),
        argument!(
            "bad",
            Form::Named("BAD"),
            "Writes bad rows to the file BAD as they stand, and says how many at the end"
        ),
        argument!(
            "force",
            Form::Flag(&[]),
            "Replaces BAD where it is there already, but never FILE"
        ),
    ],
};

const SIFT: Entry = Entry {
    name: "sift",
    about: "Sets aside the records of standard input that fault",
    below: "\
A record faults where it can't be read, or where a block faults when the record is run alone. The status is 1 where one did.

example:
  flow sift network.toml < records.csv > good.csv 2> bad.txt",
    arguments: &[NETWORK],
};

const STREAM: Entry = Entry {
    name: "stream",
    about: "Runs records chunk by chunk, without end and in little memory",
    below: "\
Each COUNT records of standard input are run by themselves, by a network of their own, and what its actions recorded is printed as
the chunk ends: as rows of CSV, if nothing else is asked for. A network whose reports can't be merged (`flow merge`) is refused. A
chunk whose run does not end with status 0 ends it with that status, and standard error says which records it has: all before them are
printed, and nothing of them. So `--from`, with the first of them, goes on there once they are mended.

example:
  flow stream 1000 network.toml < records.csv > results.csv
  flow stream 1000 network.toml 4 < records.csv > results.csv
  flow stream 1000 --jsonl --from 2001 network.toml < records.csv",
    arguments: &[
        argument!(
            "size",
            Form::Needed("COUNT"),
            "How many records a chunk has"
        ),
        NETWORK,
        argument!(
            "workers",
            Form::Optional("WORKERS"),
            "How many workers run a chunk, 1 to 64; 1 where it is not given, and more help where messages are worked on for long"
        ),
        argument!(
            "jsonl",
            Form::Flag(&[]),
            "Prints a JSON object for each result, a line each"
        ),
        argument!(
            "report",
            Form::Flag(&["jsonl"]),
            "Prints the report of each chunk"
        ),
        argument!(
            "from",
            Form::Named("RECORD"),
            "Begins with this record, from 1"
        ),
    ],
};

const SPLIT: Entry = Entry {
    name: "split",
    about: "Cuts records into parts of about the same size",
    below: "\
The parts are RECORDS.1, RECORDS.2 and so on, with as many digits as PARTS has; their names are printed. A file that is there
already is refused, and nothing is written then. A cut is never in a quoted line end. With --by-key each record is
`key,input,value`, and the parts have `input,value`. In each part each input must have the same keys in the same order, as
joins match by order; else nothing is written, and the status is 2. All records are kept in memory, with --align those of one
part twice.

example:
  flow split 8 records.csv
  flow split 8 --by-key --align --unmatched alone.csv keyed.csv",
    arguments: &[
        argument!("parts", Form::Parts("PARTS"), "How many parts, 1 to 1000"),
        argument!(
            "records",
            Form::Needed("RECORDS"),
            "The file with the records, or - for standard input"
        ),
        argument!(
            "name",
            Form::Named("NAME"),
            "Writes NAME.1, NAME.2 and so on"
        ),
        argument!(
            "by-key",
            Form::Flag(&[]),
            "Puts records with one key into one part, and takes the key off"
        ),
        argument!(
            "align",
            Form::Flag(&[]),
            "Puts all inputs into the order of keys of the first; refuses records without a partner"
        ),
        argument!(
            "unmatched",
            Form::Named("FILE"),
            "Writes records without a partner to FILE, and the others to the parts"
        ),
        argument!(
            "force",
            Form::Flag(&[]),
            "Replaces files that are there already, but never RECORDS"
        ),
    ],
};

const MERGE: Entry = Entry {
    name: "merge",
    about: "Makes the report of the whole of the reports of its parts",
    below: "\
Reports are merged of networks of buffers, actions, transforms, transform_manys and joins without a max, where each part has
status 0. The status is the worst of the parts', or 2 where they can't be merged though each has 0.

example:
  flow merge network.toml records.csv.*.report > whole.report",
    arguments: &[
        NETWORK,
        argument!(
            "parts",
            Form::SomeWords("PART"),
            "The reports of the parts, in the order of the records"
        ),
    ],
};

/// The command line: a command, and its arguments.
pub fn command_line<'a>(alloc: Global) -> Result<Command<'a>, AllocError> {
    let mut line = Command::new(alloc, "flow")
        .bin_name("flow")?
        .version(VERSION)
        .about(ABOUT)
        .after_help(STATUSES)
        .disable_help_subcommand(true)
        .subcommand_required(true);
    let entries = [
        check(),
        draw(),
        page(),
        why(),
        results(),
        trace(),
        feed(),
        sift(),
        stream(),
        split(),
        merge(),
    ];
    for entry in &entries {
        let command = command(alloc, entry)?;
        line = line.subcommand(command)?;
    }
    Ok(line)
}

// Each entry has a function of its own, which is proved with the words of that entry alone.

fn check() -> Entry {
    CHECK
}

fn draw() -> Entry {
    DRAW
}

fn page() -> Entry {
    PAGE
}

fn why() -> Entry {
    WHY
}

fn results() -> Entry {
    RESULTS
}

fn trace() -> Entry {
    TRACE
}

fn feed() -> Entry {
    FEED
}

fn sift() -> Entry {
    SIFT
}

fn stream() -> Entry {
    STREAM
}

fn split() -> Entry {
    SPLIT
}

fn merge() -> Entry {
    MERGE
}

fn command<'a>(alloc: Global, entry: &Entry) -> Result<Command<'a>, AllocError> {
    let mut command = Command::new(alloc, entry.name)
        .about(entry.about)
        .after_help(entry.below);
    for argument in entry.arguments {
        let made = made_of(alloc, *argument)?;
        command = command.arg(made)?;
    }
    Ok(command)
}

/// The argument as clap has it.
fn made_of<'a>(alloc: Global, argument: Argument) -> Result<Arg<'a>, AllocError> {
    let made = Arg::new(alloc, argument.id).help(argument.help);
    Ok(match argument.form {
        Form::Needed(name) => made.value_name(name).required(true),
        Form::Optional(name) => made.value_name(name),
        Form::Parts(name) => made
            .value_name(name)
            .required(true)
            .value_parser(value_parser!(u32).range(1..=1000)),
        Form::Words(name) => made
            .value_name(name)
            .action(ArgAction::Append)
            .num_args(0..),
        Form::SomeWords(name) => made
            .value_name(name)
            .required(true)
            .action(ArgAction::Append)
            .num_args(1..),
        Form::Named(name) => made.value_name(name).long(argument.id),
        Form::Repeated(name) => made
            .value_name(name)
            .long(argument.id)
            .action(ArgAction::Append),
        Form::Flag(others) => return flag(made, argument.id, others),
    })
}

/// A flag of this name, which never stands beside these others.
fn flag<'a>(
    made: Arg<'a>,
    name: &'static str,
    others: &[&'static str],
) -> Result<Arg<'a>, AllocError> {
    let mut flag = made.long(name).action(ArgAction::SetTrue);
    for other in others {
        flag = flag.conflicts_with(*other)?;
    }
    Ok(flag)
}
