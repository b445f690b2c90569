// What the system said of a call that failed.
use crate::marks::say;
use std::fmt::InlineText;
use std::io;

// The system's words alone: behind them `io::Error` prints their number.
fn words(text: &str) -> &str {
    match text.split_once(" (os error ") {
        Some((words, _)) => words,
        None => text,
    }
}

// A line: what failed, and why.
pub fn fail(err: &impl Print, what: &[u8], e: io::Error) {
    let text = InlineText::<256>::of(&e);
    say(err, what);
    say(err, b": ");
    say(err, words(text.as_str()).as_bytes());
    say(err, b"\n");
}
