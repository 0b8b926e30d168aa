//! Rows of CSV files as records.
use crate::check::{add, are_due, bytes_of, check, given, has_rows, two_cells};
use crate::networks::{planned, text_of};
use csv::{ByteRecord, ReaderBuilder};
use flow_feed::{Asked, Fed, FeedFault, OnBad, Sent, Wanted, feed};
use flow_text::read_records;
use flow_value::Value;
use std::alloc::Global;
use std::io;
use std::io::{ErrorKind, Read, Write};
use std::process::Abort;

/// In each row the name of a situation, what is asked for, the rows, and what comes of them: the records, behind ` / ` the rows
/// that are set aside, and behind ` ! ` why the work ended or what was set aside first. Bytes are as `bytes_of` reads them.
const FED: &str = r##"
two columns | header amount=orders customer=customers | customer,amount~anna,10~bert,20~ | orders,10~customers,anna~orders,20~customers,bert~
one input gets two columns | header b=in a=in | a,b~1,2~3,4~ | in,2~in,1~in,4~in,3~
one column goes to two inputs | header a=in a=out | a~1~ | in,1~out,1~
columns by number | 2=in | 1,2~3,4~ | in,2~in,4~
a name with an equals sign | header a=b=in | a=b~1~ | in,1~
an empty name | header =in | a,~1,2~ | in,2~
the number of the row | header #=rows a=in | a~x~y~ | rows,1~in,x~rows,2~in,y~
without a header | #=rows 1=in | x~y~ | rows,1~in,x~rows,2~in,y~
the number goes before a name | header #=in | #~x~ | in,1~
quotes stay where they must | header a=in | a,b~"x,y",1~"say ""hi""",2~"two~lines",3~"plain",4~,5~ | in,"x,y"~in,"say ""hi"""~in,"two~lines"~in,plain~in,~
quotes within a text | 1=in | a"b",1~"a"b,2~""a,3~ | in,"a""b"""~in,ab~in,a~
blanks are kept | 1=in |  a ,"b"~ "c",d~ | in, a ~in," ""c"""~
other line ends | 1=in | x^~y^z^~ | in,x~in,y~in,z~
a line end in quotes | 1=in | "x^~y",1~"^",2^"^^~~",3^~ | in,"x^~y"~in,"^"~in,"^^~~"~
no last line end | 1=in | x~y | in,x~in,y~
lines without anything | #=rows 1=in | ~~x~^~^~y~~ | rows,1~in,x~rows,2~in,y~
a quoted nothing is a row | 1=in | ""~x~ | in,~in,x~
a byte order mark | header a=in | ï»¿a,b~1,2~ | in,1~
a byte order mark before a quote | header a,b=in | ï»¿"a,b",c~1,2~ | in,1~
half a byte order mark | header a=in | ï»a,b~1,2~ | ! line 1, column 1: the row is not UTF-8 here
only a byte order mark | 1=in | ï»¿ | nothing
rows of one country | header where:c=NL a=in | a,c~1,NL~2,BE~3,NL~ | in,1~in,3~
rows that meet both | header where:c=NL where:a=3 a=in | a,c~1,NL~2,BE~3,NL~ | in,3~
rows with nothing there | header where:c= a=in | a,c~1,NL~2,~ | in,2~
a text with an equals sign | header where:c=x=y a=in | a,c~1,x~2,x=y~ | in,2~
a text of several lines | where:1=p~q 2=in | p,1~"p~q",2~ | in,2~
one row by its number | where:#=2 1=in | x~y~z~ | in,y~
numbers count all rows | header where:c=NL #=rows | c~BE~NL~ | rows,2~
a key in front | header key:id a=in b=in | id,a,b~k,1,2~l,3,4~ | k,in,1~k,in,2~l,in,3~l,in,4~
the number as the key | key:# 1=in | x~y~ | 1,in,x~2,in,y~
a key that begins as a mark | key:1 2=in | ï»¿ï»¿k,1~l,2~ | ï»¿ï»¿k,in,1~l,in,2~
a key that must be quoted | key:1 2=in | "k,l",1~ | "k,l",in,1~
nothing | 1=in | nothing | nothing
a header alone | header a=in | a~ | nothing
too few fields | header a=in | a,b~1,2~3~4,5~ | in,1~ ! line 3, column 2: 1 field, and not 2
too many fields | header a=in | a,b~1,2~3,4,5~ | in,1~ ! line 3, column 5: 3 fields, and not 2
none too many in front | header a=in | a~1,2~ | ! line 2, column 3: 2 fields, and not 1
too many behind lines | header a=in | a,b~"x~y",1,2~ | ! line 3, column 6: 3 fields, and not 2
too many behind quotes | header a=in | a,b~"1,2","a""b",3~ | ! line 2, column 14: 3 fields, and not 2
too few behind other line ends | header a=in | a,b^~1,2^~^~3^~ | in,1~ ! line 4, column 2: 1 field, and not 2
columns count characters | header a=in | a,b~Ã¤Ã¶Ã¼,1,2~ | ! line 2, column 7: 3 fields, and not 2
a field more, by number | 1=in | a~b,c~ | in,a~ ! line 2, column 3: 2 fields, and not 1
no UTF-8 | header a=in | a,b~1,2~Ã¤éx,3~ | in,1~ ! line 3, column 2: the row is not UTF-8 here
no UTF-8 in another column | header a=in | a,b~1,é~ | ! line 2, column 3: the row is not UTF-8 here
a quote that is never closed | header a=in | a,b~1,2~3,"4~5,6~ | in,1~ ! line 3, column 3: the quote here is never closed
closed and opened again | header a=in | a,b~1,"2~"~3,"a"",~ | in,1~ ! line 4, column 3: the quote here is never closed
a bad row that is not wanted | header where:a=9 a=in | a,b~1~ | ! line 2, column 2: 1 field, and not 2
bad rows aside | bad header #=rows a=in | a,b~1~2,3~4,5,6^~ 7 ,8~ | rows,2~in,2~rows,4~in, 7 ~ / 1~4,5,6^~ ! line 2, column 2: 1 field, and not 2
a bad row as it stands | bad header a=in | a,b~"1~2"^~3,4~ | in,3~ / "1~2"^~ ! line 3, column 3: 1 field, and not 2
the last bad row | bad 1=in | 1,2~~3 | in,1~ / 3 ! line 3, column 2: 1 field, and not 2
the rest aside | bad 1=in | 1,2~3,"4~5,6~ | in,1~ / 3,"4~5,6~ ! line 2, column 3: the quote here is never closed
no UTF-8 aside | bad 1=in | 1~é~2~ | in,1~in,2~ / é~ ! line 2, column 1: the row is not UTF-8 here
no bad rows | bad 1=in | 1~2~ | in,1~in,2~
no header | header a=in | ~ | ! there is no header
no header with bad rows aside | bad header a=in | nothing | ! there is no header
a header that is no UTF-8 | bad header b=in | é,b~1,2~ | ! line 1, column 1: the row is not UTF-8 here
a header that never ends | bad header b=in | a,"b~1,2~ | ! line 1, column 3: the quote here is never closed
a first row that never ends | bad 1=in | "a,b~1,2~ | ! line 1, column 1: the quote here is never closed
no such name | header b=in | a~1~ | ! the header has no column "b"
no such name to ask for | header where:b=1 a=in | a~1~ | ! the header has no column "b"
no such name of a key | header key:b a=in | a~1~ | ! the header has no column "b"
a name that is told with escapes | header b~=in | a~1~ | ! the header has no column "b\n"
blanks beside a name | header a=in |  a~1~ | ! the header has no column "a"
a name that comes twice | header a=in | a,b,a~1,2,3~ | ! the header has more than one column "a"
another name that comes twice | header a=in | a,b,b~1,2,3~ | in,1~
no number | a=in | a~1~ | ! "a" is no number of a column, and there is no --header
no column 0 | 0=in | a,b~ | ! there is no column 0: the first row has 2 fields
no column 3 | 3=in | a,b~ | ! there is no column 3: the first row has 2 fields
no column 2 | 2=in | a~ | ! there is no column 2: the first row has 1 field
"##;

/// Words of the command line that are not of their forms, and others beside them.
const WORDS: &str = r"
a=in | yes
=in | yes
a=b=in | yes
a=a.b-c_D9 | yes
a | no
a= | no
a=my orders | no
a=ï»¿in | no
a=0123456789012345678901234567890123456789012345678901234567890123 | yes
a=01234567890123456789012345678901234567890123456789012345678901234 | no
";

/// An input for each of two columns.
const TWO_INPUTS: &[u8] = br#"format = 1
block = [
  { name = "in", kind = "buffer", input = true },
  { name = "out", kind = "buffer", input = true },
  { name = "both", kind = "join", ports = 2 },
  { name = "ledger", kind = "action", work = [] },
]
link = [
  { from = "in", to = "both", port = 0, propagate = true },
  { from = "out", to = "both", port = 1, propagate = true },
  { from = "both", to = "ledger", propagate = true },
]
"#;

/// Rows of two columns with all that a field may have.
const ODD: &str =
    "a,b~\"x,y\",\"say \"\"hi\"\"\"~\"two~lines\",\" ^ \"~,\"~\"~plain,Ã¤~\u{ef}\u{bb}\u{bf}x,'~in,out~\"\"\"\",\"^~\"~";

/// Gives a byte a call, and fails behind this many.
#[derive(Drop)]
struct Bytewise<'t> {
    text: &'t [u8],
    calls: usize,
}

impl Read for Bytewise<'_> {
    fn read(&mut self, buffer: &mut [u8]) -> io::Result<usize> {
        if self.calls == 0 {
            return Err(io::Error::from(ErrorKind::BrokenPipe));
        }
        self.calls -= 1;
        if self.calls % 2 == 1 {
            return Err(io::Error::from(ErrorKind::Interrupted));
        }
        let most = buffer.len().min(1);
        self.text.read(&mut buffer[..most])
    }
}

/// Takes two bytes a call, and fails behind this many calls.
#[derive(Drop)]
struct Failing {
    calls: usize,
}

impl Write for Failing {
    fn write(&mut self, bytes: &[u8]) -> io::Result<usize> {
        if self.calls == 0 {
            return Err(io::Error::from(ErrorKind::BrokenPipe));
        }
        self.calls -= 1;
        Ok(bytes.len().min(2))
    }

    fn flush(&mut self) -> io::Result<()> {
        Ok(())
    }
}

/// What the words of a row ask for, and what is done with bad rows.
fn asked_of<'w>(rt: &(impl Abort + Print), alloc: Global, words: &'w str) -> (Asked<'w>, OnBad) {
    let mut asked = Asked {
        header: false,
        sent: Vec::new(alloc),
        wanted: Vec::new(alloc),
        key: None,
    };
    let mut on_bad = OnBad::Stop;
    for word in words.split(' ') {
        if word == "header" {
            asked.header = true;
        } else if word == "bad" {
            on_bad = OnBad::SetAside;
        } else if let Some(column) = word.strip_prefix("key:") {
            asked.key = Some(column);
        } else {
            ask(rt, &mut asked, word);
        }
    }
    (asked, on_bad)
}

/// Asks for an input, or a text in a column.
fn ask<'w>(rt: &(impl Abort + Print), asked: &mut Asked<'w>, word: &'w str) {
    if let Some(wanted) = word.strip_prefix("where:") {
        let wanted = given(rt, word, Wanted::read(wanted).ok_or(()));
        given(rt, word, asked.wanted.push(wanted));
    } else {
        let sent = given(rt, word, Sent::read(word).ok_or(()));
        given(rt, word, asked.sent.push(sent));
    }
}

/// Why the work ended, or what was set aside first; nothing where nothing was.
fn why_of(rt: &(impl Abort + Print), alloc: Global, fed: Result<Fed, FeedFault<'_>>) -> String {
    let why = match fed {
        Ok(fed) => match fed.first_bad {
            Some(row) => format!(in alloc; "! {row}"),
            None => String::from_str(alloc, ""),
        },
        Err(fault) => format!(in alloc; "! {fault}"),
    };
    given(rt, "why", why)
}

/// What comes of rows, as the table tells it.
fn fed_of<R: Read + Drop>(
    rt: &(impl Abort + Print),
    alloc: Global,
    words: &str,
    rows: R,
) -> Vec<u8> {
    let (asked, on_bad) = asked_of(rt, alloc, words);
    let mut text: Vec<u8> = Vec::new(alloc);
    let mut bad: Vec<u8> = Vec::new(alloc);
    let fed = feed(alloc, &asked, rows, on_bad, &mut text, &mut bad);
    if !bad.is_empty() {
        add(rt, &mut text, b" / ");
        add(rt, &mut text, &bad);
    }
    let why = why_of(rt, alloc, fed);
    if !text.is_empty() && !why.is_empty() {
        add(rt, &mut text, b" ");
    }
    add(rt, &mut text, why.as_bytes());
    text
}

/// The texts of a row of the table: what is asked for, the rows, and what is due.
fn cells_of<'r>(rt: &(impl Abort + Print), row: &'r str) -> (&'r str, &'r str, &'r str) {
    let (_, others) = two_cells(rt, row);
    let (words, others) = two_cells(rt, others);
    let (rows, due) = two_cells(rt, others);
    (words, rows, due)
}

/// Tests that of a row of the table comes what is due, and the same where the rows come a byte at a time.
fn is_fed(rt: &(impl Abort + Print), alloc: Global, row: &str) {
    let (words, rows, due) = cells_of(rt, row);
    let words = bytes_of(rt, alloc, words);
    let words = given(rt, row, str::from_utf8(&words));
    let rows = bytes_of(rt, alloc, rows);
    let due = bytes_of(rt, alloc, due);
    are_due(rt, row, &due, &fed_of(rt, alloc, words, rows.as_slice()));
    let slow = Bytewise {
        text: &rows,
        calls: 1_001,
    };
    are_due(rt, row, &due, &fed_of(rt, alloc, words, slow));
}

#[test]
fn rows_are_fed(rt: HostRuntime) {
    has_rows(&rt, FED, 69);
    for row in FED.lines().skip(1) {
        is_fed(&rt, rt.alloc(), row);
    }
}

#[test]
fn words_name_a_column_and_an_input(rt: HostRuntime) {
    has_rows(&rt, WORDS, 10);
    for row in WORDS.lines().skip(1) {
        let (word, due) = two_cells(&rt, row);
        check(&rt, row, Sent::read(word).is_some() == (due == "yes"));
    }
    check(&rt, "no text", Wanted::read("a").is_none());
}

/// The fields of a column of a text with a header, as `csv` reads them.
fn column_of(rt: &(impl Abort + Print), alloc: Global, text: &[u8], place: usize) -> Vec<Value> {
    let mut reader = ReaderBuilder::new().from_reader(alloc, text);
    let mut row = ByteRecord::new(alloc);
    let mut values = Vec::new(alloc);
    for _ in 0..1_000 {
        if !given(rt, "a row", reader.read_byte_record(&mut row)) {
            break;
        }
        let field = row.get(place).unwrap_or(b"no field");
        let value = Value::Text(text_of(rt, alloc, field));
        given(rt, "a field", values.push(value));
    }
    values
}

#[test]
fn what_is_fed_is_read_as_it_was(rt: HostRuntime) {
    let alloc = rt.alloc();
    let text = bytes_of(&rt, alloc, ODD);
    let records = fed_of(&rt, alloc, "header a=in b=out", text.as_slice());
    let plan = planned(&rt, alloc, TWO_INPUTS);
    let posted = given(
        &rt,
        "records",
        read_records(alloc, records.as_slice(), &plan),
    );
    check(&rt, "inputs", posted.len() == 2);
    for (place, input) in posted.iter().enumerate() {
        let due = column_of(&rt, alloc, &text, place);
        check(&rt, "a column", input.values == due);
        check(&rt, "all rows", due.len() == 7);
    }
}

/// So many times these bytes.
fn repeated(rt: &impl Abort, alloc: Global, bytes: &[u8], count: usize) -> Vec<u8> {
    let mut text = Vec::new(alloc);
    for _ in 0..count {
        add(rt, &mut text, bytes);
    }
    text
}

/// Bytes between others.
fn between(rt: &impl Abort, alloc: Global, head: &[u8], bytes: &[u8], tail: &[u8]) -> Vec<u8> {
    let mut text = Vec::new(alloc);
    add(rt, &mut text, head);
    add(rt, &mut text, bytes);
    add(rt, &mut text, tail);
    text
}

/// Tests so many rows whose field is these bytes so often, and that is quoted so in records.
fn is_long(
    rt: &(impl Abort + Print),
    alloc: Global,
    rows: usize,
    unit: &[u8],
    times: usize,
    quote: &[u8],
) {
    let field = repeated(rt, alloc, unit, times);
    let row = between(rt, alloc, b"\"", &field, b"\",1\r\n");
    let row = repeated(rt, alloc, &row, rows);
    let text = between(rt, alloc, b"a,b\r\n", &row, b"");
    let quoted = between(rt, alloc, quote, &field, quote);
    let record = between(rt, alloc, b"in,", &quoted, b"\n");
    let due = repeated(rt, alloc, &record, rows);
    let words = "bad header where:b=1 a=in";
    check(
        rt,
        "all rows",
        fed_of(rt, alloc, words, text.as_slice()) == due,
    );
}

/// The buffers of readers and writers end in any place of a row: within a line end and within two quotes too.
#[test]
fn rows_go_over_the_ends_of_buffers(rt: HostRuntime) {
    let alloc = rt.alloc();
    is_long(&rt, alloc, 4_000, b"x\"\",", 1, b"\"");
    is_long(&rt, alloc, 5_000, b"\r\n", 1, b"\"");
    is_long(&rt, alloc, 3, b"y", 20_000, b"");
    is_long(&rt, alloc, 1, b"\"\"", 20_001, b"\"");
}

/// Rows of which one is bad, and what is made of them.
const THREE: &[u8] = b"a\n1\n2,3\n4\n";

const RECORDS: &[u8] = b"in,1\nin,4\n";

/// What is asked for of them.
const WANTED: &str = "bad header a=in";

/// Tests that a reader is told that fails behind so many calls.
fn is_reader_told(rt: &(impl Abort + Print), alloc: Global, calls: usize) {
    let (asked, on_bad) = asked_of(rt, alloc, WANTED);
    let mut text: Vec<u8> = Vec::new(alloc);
    let mut bad: Vec<u8> = Vec::new(alloc);
    let rows = Bytewise { text: THREE, calls };
    let fed = feed(alloc, &asked, rows, on_bad, &mut text, &mut bad);
    check(rt, "a reader", matches!(fed, Err(FeedFault::Read(_))));
    check(rt, "a front", RECORDS.starts_with(&text));
}

/// Tests that a writer is told that fails behind so many calls.
fn is_writer_told(rt: &(impl Abort + Print), alloc: Global, calls: usize) {
    let (asked, on_bad) = asked_of(rt, alloc, WANTED);
    let mut failing = Failing { calls };
    let mut bad: Vec<u8> = Vec::new(alloc);
    let fed = feed(alloc, &asked, THREE, on_bad, &mut failing, &mut bad);
    check(rt, "a writer", matches!(fed, Err(FeedFault::Write)));
    are_due(rt, "bad rows", b"2,3\n", &bad);
}

/// Tests that a writer of bad rows is told that fails behind so many calls.
fn is_aside_told(rt: &(impl Abort + Print), alloc: Global, calls: usize) {
    let (asked, on_bad) = asked_of(rt, alloc, WANTED);
    let mut failing = Failing { calls };
    let mut text: Vec<u8> = Vec::new(alloc);
    let fed = feed(alloc, &asked, THREE, on_bad, &mut text, &mut failing);
    check(
        rt,
        "a writer of bad rows",
        matches!(fed, Err(FeedFault::Aside(_))),
    );
    are_due(rt, "records", b"in,1\n", &text);
}

#[test]
fn failures_at_any_call_are_told(rt: HostRuntime) {
    for calls in 0..2 * THREE.len() + 1 {
        is_reader_told(&rt, rt.alloc(), calls);
    }
    for calls in 0..RECORDS.len() / 2 {
        is_writer_told(&rt, rt.alloc(), calls);
    }
    is_aside_told(&rt, rt.alloc(), 0);
    is_aside_told(&rt, rt.alloc(), 1);
}
