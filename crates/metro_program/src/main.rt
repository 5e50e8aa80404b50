//! The program `metro`: it bundles the JavaScript files of a folder.
#![tactic(auto)]

mod build;
mod bundle;
mod check;
mod deps;
mod ending;
mod graph;
mod grow;
mod replay;
mod state;
mod still;

use mt_door::{NoStore, RealFolder, RealSink, RealSource};
use mt_io::{FreeGate, send_all};
use mt_request::{Request, read_request};
use mt_tokens::Text;
use std::alloc::Global;
use std::env;
use std::io::{self, ErrorKind};
use std::process::ExitCode;
use still::metro_still;

/// The words after the program's name.
fn command_words(rt: &HostRuntime) -> io::Result<Vec<Text>> {
    let mut words = Vec::new(rt.alloc());
    for word in env::args(rt)?.skip(1) {
        words.push(Text::from_string(word))?;
    }
    Ok(words)
}

/// The folder whose files the words ask for: the one in which the program runs where they name none.
fn root_of(alloc: Global, words: &[Text]) -> Option<Text> {
    match read_request(alloc, words) {
        Ok(Request { root, .. }) => root,
        Err(_) => None,
    }
}

/// Runs over the real folder and streams. Words that cannot be read are answered as none; without memory for them
/// nothing is run.
fn main(rt: HostRuntime) -> ExitCode {
    let alloc = rt.alloc();
    let mut log = RealSink::new(rt.stderr());
    let words = match command_words(&rt) {
        Ok(words) => words,
        Err(error) => {
            if error.kind() == ErrorKind::OutOfMemory {
                let _ = send_all(&mut log, b"metro: out of memory\n");
                return ExitCode::from(5);
            }
            Vec::new(alloc)
        }
    };
    let root = root_of(alloc, words.as_slice());
    let root = match &root {
        Some(root) => root.as_str(),
        None => ".",
    };
    let mut folder = RealFolder::new(&rt, root);
    let mut script = RealSource::new(rt.stdin());
    let mut out = RealSink::new(rt.stdout());
    let status = metro_still(
        &rt,
        alloc,
        words.as_slice(),
        &mut folder,
        NoStore,
        &mut script,
        &mut out,
        &mut log,
        &FreeGate,
    );
    ExitCode::from(status)
}
