// The conformance suite, and what is tried and measured beside it. Each word is a file of cases. After `obligations` it is a file of programs with what
// is known of their obligations, or of derivations, and after `repeat` it says what is repeated. A number says how often, and after `objects` so
// many objects live as the last number says.
#![tactic(auto)]

mod case;
mod suite;

use ss_tests_measures::{count_file, repeat};
use std::rt::{Env, Files};
use std::{env, io};
use suite::run_file;

/// What is done with a word.
#[derive(Clone, Copy)]
enum Task {
    Cases,
    Obligations,
    Repeat,
}

/// What is done with the next word, how often, and how many objects live.
#[derive(Clone, Copy)]
struct Asked {
    task: Task,
    count: i32,
    live: i32,
}

fn task_of(word: &str) -> Option<Task> {
    match word {
        "cases" => Some(Task::Cases),
        "obligations" => Some(Task::Obligations),
        "repeat" => Some(Task::Repeat),
        _ => None,
    }
}

/// What is asked after a word that says only that.
fn asked_behind(asked: Asked, word: &str) -> Option<Asked> {
    if let Some(task) = task_of(word) {
        return Some(Asked { task, ..asked });
    }
    if word == "objects" {
        let live = asked.count;
        return Some(Asked { live, ..asked });
    }
    match word.parse::<i32>() {
        Ok(count) => Some(Asked { count, ..asked }),
        Err(_) => None,
    }
}

fn take<R: Print + Files + AllocGlobal>(rt: &R, asked: Asked, word: &str) -> io::Result<()> {
    match asked.task {
        Task::Cases => run_file(rt, word),
        Task::Obligations => count_file(rt, word),
        Task::Repeat => repeat(rt, word, asked.live, asked.count),
    }
}

fn take_all<R: Print + Files + Env + AllocGlobal>(rt: &R) -> io::Result<()> {
    let mut asked = Asked {
        task: Task::Cases,
        count: 0,
        live: 0,
    };
    for word in env::args(rt)?.skip(1) {
        match asked_behind(asked, &word) {
            Some(next) => asked = next,
            None => take(rt, asked, &word)?,
        }
    }
    Ok(())
}

fn main(rt: HostRuntime) -> io::Result<()> {
    take_all(&rt)
}
