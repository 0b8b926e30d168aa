//! Networks that are drawn in a line.
use std::alloc::{AllocError, Global};
use std::test::Fail;

/// Puts these parts at the end of a text.
pub fn add(text: &mut Vec<u8>, parts: &[&str]) -> Result<(), AllocError> {
    for part in parts {
        text.extend_from_slice(part.as_bytes())?;
    }
    Ok(())
}

/// The text of a chain that is drawn as `in buffer => t transform/4 ["int"] -> b batch/3`: the first block is an input, a
/// link drawn by `=>` propagates, and the lanes of a block or the size of a batch stand after a stroke.
pub fn chain(alloc: Global, drawn: &str) -> Result<Vec<u8>, Fail> {
    let mut text = Vec::new(alloc);
    add(&mut text, &["format = 1\n"])?;
    let mut before = None;
    for part in drawn.split("> ") {
        let block = part
            .strip_suffix(" =")
            .or(part.strip_suffix(" -"))
            .unwrap_or(part);
        let (name, others) = block.split_once(" ").ok_or("no kind")?;
        add_block(&mut text, name, others, before.is_none())?;
        if let Some((from, propagate)) = before {
            add_link(&mut text, from, name, propagate)?;
        }
        before = Some((name, part.ends_with(" =")));
    }
    Ok(text)
}

fn add_block(
    text: &mut Vec<u8>,
    name: &str,
    others: &str,
    is_input: bool,
) -> Result<(), AllocError> {
    let (kind, work) = others.split_once(" ").unwrap_or((others, ""));
    let (kind, count) = kind.split_once("/").unwrap_or((kind, ""));
    let input = if is_input { "true" } else { "false" };
    let parts = [
        "[[block]]\nname = \"",
        name,
        "\"\ninput = ",
        input,
        "\nkind = \"",
        kind,
        "\"\n",
    ];
    add(text, &parts)?;
    if !work.is_empty() {
        add(text, &["work = ", work, "\n"])?;
    }
    if !count.is_empty() {
        let key = if kind == "batch" {
            "size = "
        } else {
            "lanes = "
        };
        add(text, &[key, count, "\n"])?;
    }
    Ok(())
}

fn add_link(text: &mut Vec<u8>, from: &str, to: &str, propagate: bool) -> Result<(), AllocError> {
    let word = if propagate { "true" } else { "false" };
    let parts = [
        "[[link]]\nfrom = \"",
        from,
        "\"\nto = \"",
        to,
        "\"\npropagate = ",
        word,
        "\n",
    ];
    add(text, &parts)
}
