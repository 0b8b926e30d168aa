//! Networks that are drawn, and what they come to.
use crate::drawn::chain;
use crate::lines::has_lines;
use flow_front::Inputs;
use flow_link::Ending;
use flow_net::{Net, Settled};
use flow_text::{TextRefusal, read_plan, write_report};
use flow_value::Steps;
use flow_words::values_of;
use std::alloc::Global;
use std::test::Fail;

/// More events than any run here has.
pub const ENOUGH: u64 = 100_000;

/// Two blocks.
pub const PAIR: &str = "in buffer => out action []";

/// Three blocks.
pub const THREE: &str = r#"in buffer => t transform ["int"] => out action []"#;

/// Posts these values to an input, and says how they end; fault 0 is none.
fn post_to(
    alloc: Global,
    inputs: &mut Inputs<Steps>,
    name: &str,
    words: &str,
    ending: Ending,
) -> Result<(), Fail> {
    for value in values_of(alloc, words)? {
        inputs.post(name, value).map_err(|_| "not posted")?;
    }
    if !ending.is_numbered() {
        return Err(Fail::new("fault 0"));
    }
    Ok(inputs.end(name, ending).map_err(|_| "no input")?)
}

/// The network that is drawn so, to whose first block these values are posted, which end so.
pub fn network(
    alloc: Global,
    drawn: &str,
    words: &str,
    ending: Ending,
) -> Result<Net<Steps>, Fail> {
    let text = chain(alloc, drawn)?;
    let mut inputs = Inputs::of(alloc, read_plan(alloc, text.as_slice())?)?;
    let (name, _) = drawn.split_once(" ").ok_or("no block")?;
    post_to(alloc, &mut inputs, name, words, ending)?;
    Ok(inputs.start(alloc)?)
}

/// Does events until none may happen, and tells whether the network is quiet then.
pub fn settles(alloc: Global, net: &mut Net<Steps>) -> bool {
    net.settle(alloc, ENOUGH) == Ok(Settled::Quiet) && net.is_quiet()
}

/// Which of these lists of lines stands in the report of a network that is quiet.
pub fn came_to(
    alloc: Global,
    net: &Net<Steps>,
    lists: &[&str],
) -> Result<Option<usize>, TextRefusal> {
    let mut report = Vec::new(alloc);
    write_report(alloc, net, Settled::Quiet, &mut report)?;
    for (place, lines) in lists.iter().enumerate() {
        if has_lines(report.as_slice(), lines) {
            return Ok(Some(place));
        }
    }
    Ok(None)
}
