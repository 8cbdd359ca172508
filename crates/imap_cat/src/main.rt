//! Reads standard input to its end, and writes a line for each response as soon as the bytes read tell it, and a last
//! line on what is left. The exit status is 0, 2 or 3 by that line (`end`, `waiting`, `denied`), and 1 after a fault.
#![tactic(auto)]

use imap_report::{OnDenied, Plain, Reading, Writing, cat};
use std::io;
use std::process::ExitCode;

fn main(rt: HostRuntime) -> ExitCode {
    let words = Plain {
        on_denied: OnDenied::Stop,
    };
    let mut reader = Reading::new(rt.reader());
    let mut writer = Writing::new(io::writer(&rt));
    cat(rt.alloc(), &rt, &words, &mut reader, &mut writer)
}
