mod base;
mod outside;
mod selects;
mod statements;
mod words;

use std::alloc::{AllocError, Global};

/// The text of a case, which stands on one line: with a tab, a CR and an LF for each of their signs, and with what stands
/// between `{` and `}` a million times.
fn whole_text(alloc: Global, case: &str) -> Result<String, AllocError> {
    let mut text = String::new(alloc);
    for (i, piece) in case.split(['{', '}']).enumerate() {
        let times = if i % 2 == 0 { 1 } else { 1_000_000 };
        for _ in 0..times {
            push_plain(&mut text, piece)?;
        }
    }
    Ok(text)
}

fn push_plain(text: &mut String, piece: &str) -> Result<(), AllocError> {
    for c in piece.chars() {
        text.push(match c {
            '␉' => '\t',
            '␍' => '\r',
            '␊' => '\n',
            _ => c,
        })?;
    }
    Ok(())
}
