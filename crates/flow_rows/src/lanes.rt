//! A block that works on several messages at once gives the results in the order of the messages, by however many workers.

use crate::told::{Told, told_with};
use flow_trial::{ENOUGH, add, chain, has_lines};
use std::alloc::{AllocError, Global};
use std::test::Fail;

const FOUR_LANES: &str = r#"in buffer => t transform/4 ["int", "add 1"] => out action []"#;

/// The records with the numbers from 1 to 100, and the line of them, each plus one.
fn hundred(alloc: Global) -> Result<(Vec<u8>, Vec<u8>), AllocError> {
    let mut records = Vec::new(alloc);
    let mut line = Vec::new(alloc);
    add(&mut line, &["record [2"])?;
    add(&mut records, &["in,1\n"])?;
    for number in 2..101u32 {
        let digits = number.to_string(alloc)?;
        add(&mut records, &["in,", digits.as_str(), "\n"])?;
        let digits = (number + 1).to_string(alloc)?;
        add(&mut line, &[",", digits.as_str()])?;
    }
    add(&mut line, &["]"])?;
    Ok((records, line))
}

fn is_due(told: &Told, line: &[u8]) -> bool {
    match str::from_utf8(line) {
        Ok(line) => told.status == 0 && has_lines(told.text.as_slice(), line),
        Err(_) => false,
    }
}

#[test]
fn lanes_keep_order(rt: HostRuntime) -> Result<(), Fail> {
    let alloc = rt.alloc();
    let network = chain(alloc, FOUR_LANES)?;
    let (records, line) = hundred(alloc)?;
    let one = told_with(&rt, alloc, &network, records.as_slice(), 1, ENOUGH)?;
    let two = told_with(&rt, alloc, &network, records.as_slice(), 2, ENOUGH)?;
    let eight = told_with(&rt, alloc, &network, records.as_slice(), 8, ENOUGH)?;
    assert!(rt; is_due(&one, &line));
    assert!(rt; one.text == two.text && one.text == eight.text);
    assert!(rt; two.status == 0 && eight.status == 0);
    Ok(())
}
