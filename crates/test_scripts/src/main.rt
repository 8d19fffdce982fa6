//! `test_scripts FOLDER` replays every script of a folder and lists every list of it, and prints the results. Its
//! stored run compares all cases below `data/` with the reports that the formats require.
#![tactic(auto)]

mod cases;
mod form;

use std::process::ExitCode;

fn main(rt: HostRuntime) -> ExitCode {
    match cases::run(&rt) {
        Ok(()) => ExitCode::SUCCESS,
        Err(error) => {
            let _ = eprintln!(rt; "test_scripts: {error}");
            ExitCode::FAILURE
        }
    }
}
