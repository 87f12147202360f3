//! What is shown of a text.

use std::io;

/// Prints the whole text, its first lines, or those of its lines that fit patterns.
pub fn print_shown(rt: &HostRuntime, shown: &str, text: &str) -> io::Result<()> {
    if shown == "all" {
        print!(rt; "{text}")?;
        return Ok(());
    }
    match shown.parse::<usize>() {
        Ok(count) => print_first(rt, count, text),
        Err(_) => print_fitting(rt, shown, text),
    }
}

/// Prints the first lines.
fn print_first(rt: &HostRuntime, count: usize, text: &str) -> io::Result<()> {
    for line in text.lines().take(count) {
        println!(rt; "{line}")?;
    }
    Ok(())
}

/// Prints each of the patterns that a line of the text fits, where these lines come in the order of the patterns, and of the first one
/// that no line fits that it is missing.
fn print_fitting(rt: &HostRuntime, patterns: &str, text: &str) -> io::Result<()> {
    let mut patterns = patterns.split(';');
    let mut wanted = patterns.next();
    for line in text.lines() {
        if let Some(pattern) = wanted {
            if fits(line, pattern) {
                println!(rt; "{pattern}")?;
                wanted = patterns.next();
            }
        }
    }
    if let Some(pattern) = wanted {
        println!(rt; "missing: {pattern}")?;
    }
    Ok(())
}

/// The line is the pattern, in which each `~` stands for any text.
fn fits(line: &str, pattern: &str) -> bool {
    let mut pieces = pattern.split('~');
    let Some(mut rest) = line.strip_prefix(pieces.next().unwrap_or("")) else {
        return false;
    };
    for piece in pieces {
        match rest.split_once(piece) {
            Some((_, after)) => rest = after,
            None => return false,
        }
    }
    rest.is_empty() || pattern.ends_with('~')
}
