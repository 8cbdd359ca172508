//! Reads standard input to its end, and writes a line of JSON for each response as soon as the bytes read tell it,
//! and a last line on what is left, in the form that `docs/JSON.md` says. The exit status is 0, 2 or 3 by that line
//! (`end`, `waits`, `denied`), and 1 after a fault, or where the arguments are other than none or `--skip`.
//!
//! With `--skip` a line that is denied is skipped and told, and what is behind it is read.
#![tactic(auto)]

mod json_lines;

use imap_report::{OnDenied, Reading, Writing, cat};
use json_lines::JsonLines;
use std::env::{self, Args};
use std::io;
use std::process::ExitCode;

// What is done with a denied line, as the program's arguments ask; `None` where they are other ones.
fn asked(args: Args) -> Option<OnDenied> {
    let mut words = args;
    words.next(); // the program's name
    let Some(word) = words.next() else {
        return Some(OnDenied::Stop);
    };
    if word.as_str() == "--skip" && words.next().is_none() {
        Some(OnDenied::Skip)
    } else {
        None
    }
}

fn main(rt: HostRuntime) -> ExitCode {
    let Some(on_denied) = env::args(&rt).ok().and_then(asked) else {
        let _ = eprintln!(rt; "usage: imap_jsonl [--skip]");
        return ExitCode::FAILURE;
    };
    let mut reader = Reading::new(rt.reader());
    let mut writer = Writing::new(io::writer(&rt));
    cat(
        rt.alloc(),
        &rt,
        &JsonLines { on_denied },
        &mut reader,
        &mut writer,
    )
}
