//! The program: thin, everything that matters is in the libraries.
#![tactic(auto)]

mod cipher;
mod failure;
mod hashing;
mod input;
mod judging;
mod output;
mod paging;
mod speed;

use failure::Failure;
use std::env;
use std::process::ExitCode;

const VERSION: &str = "lochgrater 0.1.0";

const HELP: &str = "usage: lochgrater COMMAND
  hash FILE..                   print the PHOTON-Beetle digest of each file
  page [--register KIND] FILE   print the runs of a number page; KIND is chart or span
  judge FILE                    print a recipe line by line, or why it may not be run
  recipe TEXT OUT               make a recipe's bytes of such lines, without the places
  cipher seal WORDS IN OUT      seal a file with the raw cipher
  cipher open WORDS IN OUT      open a sealed file
  speed                         time the engines against each other
  help                          print this text
  version                       print the program's version
A FILE, TEXT or IN of '-' is standard input, an OUT of '-' standard output.
WORDS of cipher:
  --rate 128|32
  --key HEX | --key-file FILE   16 bytes
  --nonce HEX                   16 bytes
  --ad HEX | --ad-file FILE     associated data, none if left out";

fn run<'a>(rt: &HostRuntime, words: &'a [String]) -> Result<ExitCode, Failure<'a>> {
    let [command, names @ ..] = words else {
        return Err(Failure::Usage);
    };
    match command.as_str() {
        "hash" => return hashing::hash_files(rt, names),
        "page" => paging::run(rt, names)?,
        "judge" => judging::judge(rt, names)?,
        "recipe" => judging::make(rt, names)?,
        "cipher" => cipher::run(rt, names)?,
        "speed" => speed::compare(rt)?,
        "help" => println!(rt; "{HELP}")?,
        "version" => println!(rt; "{VERSION}")?,
        _ => return Err(Failure::Usage),
    }
    Ok(ExitCode::SUCCESS)
}

fn words(rt: &HostRuntime) -> Result<Vec<String>, Failure<'static>> {
    Ok(env::args(rt)?.skip(1).collect(rt.alloc())?)
}

/// The status of a command. Why it failed is said on standard error, and where that fails, why it could not be said.
fn status(rt: &HostRuntime, ended: Result<ExitCode, Failure<'_>>) -> ExitCode {
    ended
        .or_else(|failure| tell(rt, failure))
        .unwrap_or_else(|failure| {
            let _ = eprintln!(rt; "{failure}");
            ExitCode::FAILURE
        })
}

/// Says why a command failed. What memory or the system failed in is handed on, and so is a failure to say it.
fn tell<'a>(rt: &HostRuntime, failure: Failure<'a>) -> Result<ExitCode, Failure<'a>> {
    if let Failure::Memory(_) | Failure::System(_) = failure {
        return Err(failure);
    }
    eprintln!(rt; "{failure}")?;
    if let Failure::KeySize = failure {
        eprintln!(rt; "{HELP}")?;
    }
    Ok(ExitCode::FAILURE)
}

fn main(rt: HostRuntime) -> ExitCode {
    match words(&rt) {
        Ok(words) => status(&rt, run(&rt, words.as_slice())),
        Err(failure) => status(&rt, Err(failure)),
    }
}
