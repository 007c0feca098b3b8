//! What the words of the command line ask for.
ghost use Rattle.std.specs.Prelude.{◌≡◌, ◌≤◌, IfOk, IfSome, IsSome, IsTrue, map, option_map, string_bytes};
ghost use Rattle.clap.specs.Words.{found_of, rows_of};
ghost use Rattle.lin_words.specs.Commands.{asked, asked_by, asked_in, asked_with, further_named, has_its_further, plan_of, size_named, steps_named, task_named, IsSized, NeedsFurther};

use crate::command_line::{program, value_of};
use crate::options::{Options, number, options_of};
use clap::ArgMatches;
use clap::error::ErrorKind;
use data_theory::NoMemory;
use lin_answers::Plan;
use lin_driver::{Ending, Method};
use std::alloc::Global;

/// What the program does with a text.
#[derive(Clone, Copy, Debug, PartialEq, Eq)]
pub enum Task {
    /// Tell whether it can be linearised.
    Check,
    /// Write its linear process, with its components encoded by the method.
    Linearise(Method),
    /// Write its linear process without the parameters that keep their first values, by rewriting with this much fuel.
    Constelm {
        /// How the components are encoded.
        method: Method,
        /// The uses of equations that a rewriting has.
        fuel: u64,
    },
    /// Write its linear process without the parameters that nothing needs.
    Parelm(Method),
    /// Write its linear process without the sums that an equality solves, by rewriting with this much fuel.
    Sumelm {
        /// How the components are encoded.
        method: Method,
        /// The uses of equations that a rewriting has.
        fuel: u64,
    },
    /// Write what its linear process can do first.
    Steps {
        /// How the components are encoded.
        method: Method,
        /// The uses of equations that a rewriting has.
        fuel: u64,
        /// The values that are tried of a sum.
        bound: u64,
    },
    /// Write what its linear process can do behind the moves that a file chooses.
    StepsAfter {
        /// How the components are encoded.
        method: Method,
        /// The uses of equations that a rewriting has.
        fuel: u64,
        /// The values that are tried of a sum.
        bound: u64,
    },
    /// Write the labels of a walk of its linear process.
    Walk {
        /// How the components are encoded.
        method: Method,
        /// How the walk goes.
        plan: Plan,
    },
    /// Write whether the equations of its text keep the rules under which they are consistent.
    Equations(Method),
    /// Write how large the linear process of a line of so many buffers is.
    Generate(u64),
    /// Write whether its linear process has the steps of a trace.
    Replay {
        /// How the components are encoded.
        method: Method,
        /// The uses of equations that a rewriting has.
        fuel: u64,
        /// The values that are tried of a sum.
        bound: u64,
    },
    /// Write its linear process without the summands that an invariant contradicts, by rewriting with this much fuel; or where the
    /// invariant wasn't proved.
    Invariant {
        /// How the components are encoded.
        method: Method,
        /// The uses of equations that a rewriting has.
        fuel: u64,
    },
}

/// A task, the files that it is to be done with, and whether the end of a process is a step.
#[derive(Clone, Copy, Debug)]
pub struct Command<'a> {
    /// The task.
    pub task: Task,
    /// The name of the file.
    pub file: &'a str,
    /// The name of the further file that the task reads: of the trace of [`Task::Replay`], of the invariant of [`Task::Invariant`], or
    /// of the choices of [`Task::StepsAfter`].
    pub further: Option<&'a str>,
    /// Whether the end of a process is a step.
    pub ending: Ending,
}

/// The command that the words give, where they give one: where `clap` takes them, and each of their values is one.
///
/// # Errors
///
/// No memory was left.
pub fn command_of<'a>(alloc: Global, words: &'a [String]) -> Result<Option<Command<'a>>, NoMemory>
    ensures asked { IfOk result (λ command. option_map asked command ≡ asked_by (map string_bytes words.entry.now)) }
    ensures sized { IfOk result (λ command. IfSome command (λ c. IsSized c.task)) }
    ensures further { IfOk result (λ command. IfSome command (λ c. NeedsFurther c.task → IsSome c.further)) }
    ensures needs { IfOk result (λ command. IfSome command (λ c. IsSome c.further → NeedsFurther c.task)) }
{
    let Ok(program) = program(alloc) else {
        return Err(NoMemory);
    };
    match program.try_get_matches_from(words) {
        Ok(matches) => Ok(command_in(&matches)),
        Err(error) if error.kind() == ErrorKind::OutOfMemory => Err(NoMemory),
        Err(_) => Ok(None),
    }
}

/// The command in the matches.
fn command_in<'a>(matches: &ArgMatches<'a>) -> Option<Command<'a>>
    ensures asked { option_map asked result ≡ asked_in (rows_of (found_of matches.now)) }
    ensures sized { IfSome result (λ c. IsSized c.task) }
    ensures further { IfSome result (λ c. NeedsFurther c.task → IsSome c.further) }
    ensures needs { IfSome result (λ c. IsSome c.further → NeedsFurther c.task) }
{
    command_with(
        value_of(matches, "task"),
        value_of(matches, "file"),
        value_of(matches, "trace"),
        value_of(matches, "invariant"),
        value_of(matches, "after"),
        options_of(matches),
    )
}

/// The command of a task's name, a file, a trace, an invariant, a file of choices and the options.
fn command_with<'a>(
    word: Option<&str>,
    file: Option<&'a str>,
    trace: Option<&'a str>,
    invariant: Option<&'a str>,
    after: Option<&'a str>,
    options: Option<Options>,
) -> Option<Command<'a>>
    ensures asked { option_map asked result ≡ asked_with (option_map (λ s. s.now) word.entry) (option_map (λ s. s.now) file.entry) (option_map (λ s. s.now) trace.entry) (option_map (λ s. s.now) invariant.entry) (option_map (λ s. s.now) after.entry) options }
    ensures sized { IfSome result (λ c. IsSized c.task) }
    ensures further { IfSome result (λ c. NeedsFurther c.task → IsSome c.further) }
    ensures needs { IfSome result (λ c. IsSome c.further → NeedsFurther c.task) }
{
    let (Some(word), Some(file), Some(options)) = (word, file, options) else {
        return None;
    };
    let task = task_of(word, file, after, options)?;
    let further = further_of(task, trace, invariant, after);
    if !has_its_further(task, further) {
        return None;
    }
    Some(Command {
        task,
        file,
        further,
        ending: options.ending,
    })
}

/// The further file that a task reads: the trace, the invariant, or the choices.
fn further_of<'a>(
    task: Task,
    trace: Option<&'a str>,
    invariant: Option<&'a str>,
    after: Option<&'a str>,
) -> Option<&'a str>
    ensures named { option_map (λ s. s.now) result ≡ further_named task (option_map (λ s. s.now) trace.entry) (option_map (λ s. s.now) invariant.entry) (option_map (λ s. s.now) after.entry) }
    ensures needs { IsSome result → NeedsFurther task }
{
    match task {
        Task::Replay { .. } => trace,
        Task::Invariant { .. } => invariant,
        Task::StepsAfter { .. } => after,
        _ => None,
    }
}

/// Whether a further file is named, where the task needs one.
fn has_its_further(task: Task, further: Option<&str>) -> bool
    ensures says { result ≡ has_its_further task (option_map (λ s. s.now) further.entry) }
    ensures there { IsTrue result → NeedsFurther task → IsSome further.entry }
{
    match task {
        Task::Replay { .. } => further.is_some(),
        Task::Invariant { .. } => further.is_some(),
        Task::StepsAfter { .. } => further.is_some(),
        _ => true,
    }
}

/// The task `steps`, behind the moves of a file where one is named.
fn steps_of(after: Option<&str>, options: Options) -> Task
    ensures named { result ≡ steps_named (option_map (λ s. s.now) after.entry) options }
    ensures sized { IsSized result }
{
    let Options {
        method,
        fuel,
        bound,
        ..
    } = options;
    match after {
        Some(_) => Task::StepsAfter {
            method,
            fuel,
            bound,
        },
        None => Task::Steps {
            method,
            fuel,
            bound,
        },
    }
}

/// The task of this name, with what it takes of the file, of that behind `--after` and of the options.
fn task_of(word: &str, file: &str, after: Option<&str>, options: Options) -> Option<Task>
    ensures named { result ≡ task_named word.now file.now (option_map (λ s. s.now) after.entry) options }
    ensures sized { IfSome result IsSized }
{
    let Options {
        method,
        fuel,
        bound,
        ..
    } = options;
    match word {
        "check" => Some(Task::Check),
        "linearise" => Some(Task::Linearise(method)),
        "constelm" => Some(Task::Constelm { method, fuel }),
        "parelm" => Some(Task::Parelm(method)),
        "sumelm" => Some(Task::Sumelm { method, fuel }),
        "steps" => Some(steps_of(after, options)),
        "walk" => Some(Task::Walk {
            method,
            plan: plan_of(options),
        }),
        "equations" => Some(Task::Equations(method)),
        "generate" => Some(Task::Generate(size_of(file)?)),
        "replay" => Some(Task::Replay {
            method,
            fuel,
            bound,
        }),
        "invariant" => Some(Task::Invariant { method, fuel }),
        _ => None,
    }
}

/// How many buffers a line has that is named so: a number from 2 to 40.
fn size_of(word: &str) -> Option<u64>
    ensures named { result ≡ size_named word.now }
    ensures within { IfSome result (λ size. (2 ≤ size) × (size ≤ 40)) }
{
    let size = number(word, 40)?;
    if size < 2 {
        return None;
    }
    Some(size)
}

/// How the options let a walk go.
fn plan_of(options: Options) -> Plan
    ensures { result ≡ plan_of options }
{
    let Options {
        method: _,
        fuel,
        bound,
        seed,
        depth,
        ending: _,
    } = options;
    Plan {
        fuel,
        bound,
        seed,
        depth,
    }
}
