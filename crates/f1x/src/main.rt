//! The program `f1x`, which repairs a C program over the tests of a suite.
#![tactic(auto)]

use fx_io::{HostFiles, HostSink};
use repair_cli::run_alone;
use std::env;
use std::process::ExitCode;

fn main(rt: HostRuntime) -> ExitCode {
    let words = words_after_name(&rt);
    let mut files = HostFiles::new(&rt);
    let mut out = HostSink::out(&rt);
    let mut err = HostSink::err(&rt);
    let status = run_alone(rt.alloc(), &words, &mut files, &mut out, &mut err);
    ExitCode::from(status.number())
}

// The words after the program's name. Where they can't be had there are none, which is no command.
fn words_after_name(rt: &HostRuntime) -> Vec<String> {
    let mut words = Vec::new(rt.alloc());
    let Ok(all) = env::args(rt) else {
        return words;
    };
    for word in all.skip(1) {
        if words.push(word).is_err() {
            words.clear();
            return words;
        }
    }
    words
}
