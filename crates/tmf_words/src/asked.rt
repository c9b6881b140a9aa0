//! What accepted words ask for, as clap reads them.
ghost use Rattle.std.specs.Prelude.{◌≡◌, ◌≤◌, ℕ, map, string_bytes, IsTrue, IfErr, IfOk, IfSome};
ghost use Rattle.clap.specs.Words.{app_of, kind_of, subcommand_rows_of};
ghost use Rattle.tmf_words.specs.Asked.{asked_for, asked_of, number_in, program};
ghost use Rattle.tmf_words.specs.Words.{are_accepted, bank_of};

use crate::words::transfers_of;
use clap::error::ErrorKind;
use clap::{Arg, ArgMatches, Command, Error};
use std::alloc::{AllocError, Global};

/// What accepted words ask for: a run of a script, or a bank run of so many transfers.
#[derive(Clone, Copy, Debug, PartialEq, Eq)]
pub enum Asked {
    Run,
    Bank(u32),
}

/// The command that reads accepted words. It has no help, since no such words ask for it.
fn program<'a>(alloc: Global) -> Result<Command<'a>, AllocError>
    ensures { IfOk result (λ command. app_of command ≡ program) }
{
    let run_folder = Arg::new(alloc, "dir").long("dir");
    let run = Command::new(alloc, "run").arg(run_folder)?;
    let bank_folder = Arg::new(alloc, "dir").long("dir");
    let transfers = Arg::new(alloc, "transfers");
    let bank = Command::new(alloc, "bank")
        .arg(bank_folder)?
        .arg(transfers)?;
    Command::new(alloc, "tmf")
        .disable_help_flag(true)
        .disable_help_subcommand(true)
        .subcommand(run)?
        .subcommand(bank)
}

/// What clap finds in accepted words. It refuses none, want of memory aside.
fn found_in<'a>(alloc: Global, words: &'a [String]) -> Result<ArgMatches<'a>, Error>
    requires accepted { IsTrue (are_accepted (map string_bytes words.now)) }
    ensures number { IfOk result (λ found. number_in (subcommand_rows_of found) ≡ bank_of (map string_bytes words.now)) }
    ensures memory { IfErr result (λ error. kind_of error ≡ ErrorKind.OutOfMemory) }
{
    let command = program(alloc)?;
    command.try_get_matches_from(words)
}

/// The number of transfers that was found, if it is a bank run that was asked for.
fn number_in(found: &ArgMatches<'_>) -> Option<u32>
    ensures number { result ≡ number_in (subcommand_rows_of found.now) }
    ensures within { IfSome result (λ number. (1 ≤ number) × (number ≤ 4095)) }
{
    let (name, rows) = found.subcommand()?;
    if name == "bank" {
        transfers_of(rows.get_str("transfers")?)
    } else {
        None
    }
}

/// Reads accepted words. Want of memory is its only refusal.
pub fn asked_by(alloc: Global, words: &[String]) -> Result<Asked, AllocError>
    requires accepted { IsTrue (are_accepted (map string_bytes words.now)) }
    ensures asked { IfOk result (λ asked. asked ≡ asked_of (map string_bytes words.now)) }
    ensures within { IfOk result (λ asked. (number : ℕ) → asked ≡ Asked.Bank number → (1 ≤ number) × (number ≤ 4095)) }
{
    let Ok(found) = found_in(alloc, words) else {
        return Err(AllocError);
    };
    match number_in(&found) {
        Some(transfers) => Ok(Asked::Bank(transfers)),
        None => Ok(Asked::Run),
    }
}
