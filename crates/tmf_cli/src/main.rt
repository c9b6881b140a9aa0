//! The program `tmf`: `tmf run` carries out a script, which it reads from the standard input, over
//! devices in memory, or in the folder that `--dir` names; `tmf bank N` carries out the transfers of a bank.
#![tactic(auto)]

mod act;
mod bank;
mod countdown;
mod device;
mod laws;
mod lost;
mod made;
mod means;
mod node;
mod play;
mod rolling;
mod status;
#[cfg(test)]
mod tests;
mod threads;
mod told;
mod top;

use device::devices;
use status::Status;
use std::alloc::{AllocError, Global};
use std::process::ExitCode;
use std::{env, io};
use tmf_edges::{StdSink, StdSource};
use tmf_words::dir_of;
use top::tmf;

/// The words, in a list.
fn listed(alloc: Global, words: env::Args) -> Result<Vec<String>, AllocError> {
    let mut list = Vec::new(alloc);
    for word in words {
        list.push(word)?;
    }
    Ok(list)
}

fn main(rt: HostRuntime) -> ExitCode {
    let alloc = rt.alloc();
    let words = match env::args(&rt) {
        Ok(words) => listed(alloc, words),
        Err(error) if error.kind() == io::ErrorKind::OutOfMemory => Err(AllocError),
        // A word that is no text is none that the program takes.
        Err(_) => Ok(Vec::new(alloc)),
    };
    let Ok(words) = words else {
        return ExitCode::from(Status::NoMemory.code());
    };
    let Ok(bay) = devices(&rt, dir_of(&words)) else {
        return ExitCode::from(Status::NoMemory.code());
    };
    let mut source = StdSource::new(rt.reader());
    let mut sink = StdSink::new(io::writer(&rt));
    let (status, _) = tmf(&rt, alloc, &words, &mut source, &mut sink, bay);
    ExitCode::from(status)
}
