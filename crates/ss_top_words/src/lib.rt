//! What the words of a command line ask for.
#![tactic(auto)]

ghost use Rattle.std.specs.Prelude.{◌≡◌, IfOk, IsErr, Some, is_some, map, option_map, string_bytes, true};
ghost use Rattle.ss_top_words.specs.Views.{asked_of, reading_of, texts_of, IsShort};
ghost use Rattle.ss_top_words.specs.Words as meaning;

mod number_options;
mod numbers;
mod options;
mod reading;
mod sketch;

use crate::numbers::push_numbers;
use crate::reading::Reading;
use crate::sketch::are_asked;
use std::alloc::{AllocError, Global};

/// What is done with the file.
#[derive(Clone, Copy, Debug, PartialEq, Eq)]
pub enum Command {
    /// Verify the program, and write the verdict.
    Verify,
    /// Verify the program, and run it.
    Run,
    /// Run the program with all its checks, whatever it is.
    RunUnverified,
    /// Write the program's core program.
    Expand,
}

/// How far verification searches.
#[derive(Clone, Copy, Debug, PartialEq, Eq)]
pub struct Limits {
    /// The rounds of the ground form of an obligation.
    pub rounds: u8,
    /// The most splits of its formulas.
    pub splits: u64,
    /// The most formulas that it may have.
    pub instances: u32,
}

/// What the words ask for: a command, its file, how far verification searches, and of a run its most steps and its input.
#[derive(Drop)]
pub struct Asked<'w> {
    pub command: Command,
    pub file: &'w str,
    pub limits: Limits,
    pub steps: u64,
    pub input: Vec<i32>,
}

/// How many steps a run has where none are named.
pub const DEFAULT_STEPS: u64 = 1_000_000;

/// How far verification searches where nothing is said of it.
pub const DEFAULT_LIMITS: Limits = Limits {
    rounds: 2,
    splits: 200_000,
    instances: 50_000,
};

// How many numbers an input has at most.
const MOST_NUMBERS: usize = 2_147_483_647;

fn command_named(word: &str) -> Option<Command>
    ensures { result ≡ meaning.command_named word.now }
{
    if word == "verify" {
        return Some(Command::Verify);
    }
    if word == "run" {
        return Some(Command::Run);
    }
    if word == "expand" {
        return Some(Command::Expand);
    }
    None
}

// A command that has a file alone.
fn of_file<'w>(alloc: Global, command: Command, reading: &Reading<'w>) -> Option<Asked<'w>>
    ensures means { option_map asked_of result ≡ meaning.of_file command (reading_of reading.now) (texts_of reading.now.positional.items) }
    ensures short { IsShort result }
{
    let [file] = reading.positional.as_slice() else {
        return None;
    };
    if !reading.options.stand_with(command) {
        return None;
    }
    Some(Asked {
        command,
        file,
        limits: reading.options.limits(),
        steps: reading.options.most_steps(),
        input: Vec::new(alloc),
    })
}

// A run of a file with numbers.
fn of_run<'w>(alloc: Global, reading: &Reading<'w>) -> Result<Option<Asked<'w>>, AllocError>
    ensures means { IfOk result (λ a. option_map asked_of a ≡ meaning.of_run (reading_of reading.now) (texts_of reading.now.positional.items)) }
    ensures short { IfOk result IsShort }
{
    let [file, words @ ..] = reading.positional.as_slice() else {
        return Ok(None);
    };
    let mut input = Vec::new(alloc);
    if !push_numbers(words, &mut input)? || input.len() > MOST_NUMBERS {
        return Ok(None);
    }
    Ok(Some(Asked {
        command: run_command(reading.options.unverified),
        file,
        limits: reading.options.limits(),
        steps: reading.options.most_steps(),
        input,
    }))
}

fn run_command(unverified: bool) -> Command
    ensures { result ≡ meaning.run_command unverified }
{
    if unverified {
        Command::RunUnverified
    } else {
        Command::Run
    }
}

fn asked_by<'w>(
    alloc: Global,
    command: Command,
    reading: &Reading<'w>,
) -> Result<Option<Asked<'w>>, AllocError>
    ensures means { IfOk result (λ a. option_map asked_of a ≡ meaning.asked_by command (reading_of reading.now)) }
    ensures short { IfOk result IsShort }
{
    match command {
        Command::Verify | Command::Expand => Ok(of_file(alloc, command, reading)),
        Command::Run | Command::RunUnverified => of_run(alloc, reading),
    }
}

// What the words after a command ask for.
fn read_after(
    alloc: Global,
    command: Command,
    words: &[String],
) -> Result<Option<Asked<'_>>, AllocError>
    ensures means { IfOk result (λ a. option_map asked_of a ≡ meaning.complete (Some command) (meaning.read_all (Some meaning.first_reading) (map string_bytes words.now))) }
    ensures short { IfOk result IsShort }
{
    let mut reading = Reading::new(alloc);
    if !reading.read_all(words)? || reading.options.wants.is_some() {
        return Ok(None);
    }
    asked_by(alloc, command, &reading)
}

/// What the words after the program's name ask for, or nothing where they aren't those of a command. An error is want of memory, and
/// comes only where they are.
pub fn read_words(alloc: Global, words: &[String]) -> Result<Option<Asked<'_>>, AllocError>
    ensures memory { IsErr result → is_some (meaning.asked (map string_bytes words.now)) ≡ true }
    ensures means { IfOk result (λ a. option_map asked_of a ≡ meaning.asked (map string_bytes words.now)) }
    ensures short { IfOk result IsShort }
{
    let [word, others @ ..] = words else {
        return Ok(None);
    };
    let Some(command) = command_named(word.as_str()) else {
        return Ok(None);
    };
    if !are_asked(command, others) {
        return Ok(None);
    }
    read_after(alloc, command, others)
}
