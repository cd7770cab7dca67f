//! What a command is asked to do.
ghost use Rattle.std.specs.Prelude.{◌≡◌, option_map, IfSome};
ghost use Rattle.command_words.specs.Whole.{IsWhole, IsWholeCore};
ghost use Rattle.slothy_cli.specs.Command.{HasCore, IsRightJob, upon, line_for, aim_in, task_in, command_in};
ghost use Rattle.slothy_cli.specs.Ending.{core_name, state_name, names_of_command};
ghost use Rattle.slothy_cli.specs.NamesShown.{names_of};
ghost use Rattle.slothy_cli.specs.Shown.{shown, shown_aim, shown_job, shown_task};

use crate::files::Names;
use command_words::{CoreWord, Mode, Options};
use sl_isa::ArchName;
use sl_model::register::RegSet;

/// What `opt` is asked for.
#[derive(Clone, Copy, Debug)]
pub struct Aim {
    /// The registers that live on behind the region; where none are given, all that it writes.
    pub live: Option<RegSet>,
    /// The registers that schedules may write beside those that the region writes.
    pub free: RegSet,
    /// The most stalls of a schedule.
    pub most: u32,
    /// How many lists of choices are looked at in a tree.
    pub budget: u64,
    /// How many workers share the trees of a level. No answer depends on it.
    pub workers: u32,
}

/// What is done with a region on a core.
#[derive(Clone, Copy, Debug)]
pub enum Job {
    /// Says what the region costs as it stands.
    Cost,
    /// Writes the file with the region rescheduled.
    Opt(Aim),
    /// Says what rescheduling a kernel gains, which has at most 64 items and is drawn from a key.
    Demo { aim: Aim, key: u64, count: u64 },
}

impl Job {
    /// The line that is told of an instruction on a line of the job's region: a kernel has no file,
    /// and no line.
    pub fn line(self, line: u32) -> u32
        ensures { result ≡ line_for (shown_job self) line }
    {
        match self {
            Job::Cost => line,
            Job::Opt(_) => line,
            Job::Demo { .. } => 0,
        }
    }
}

/// What a command does.
#[derive(Clone, Copy)]
pub enum Task<'a> {
    /// A job on the region of a file, for the core that a word names.
    OnCore { core: &'a CoreWord, job: Job },
    /// Runs the region on the state of a file. A loop may run at most so many turns.
    Run { state: &'a str, turns: u64 },
}

impl<'a> Task<'a> {
    // The name of the core's file; empty where none is read.
    fn core_name(&self) -> &'a str
        ensures { result.now ≡ core_name (shown_task self.now) }
    {
        match self {
            Task::OnCore {
                core: CoreWord::File { name },
                ..
            } => name.text(),
            _ => "",
        }
    }

    // The name of the state file; empty where none is read.
    fn state_name(&self) -> &'a str
        ensures { result.now ≡ state_name (shown_task self.now) }
    {
        match self {
            Task::Run { state, .. } => state,
            Task::OnCore { .. } => "",
        }
    }
}

/// What is to be done, with which region of which file.
#[derive(Clone, Copy)]
pub struct Command<'a> {
    /// The architecture of the region.
    pub arch: ArchName,
    /// What is to be done.
    pub task: Task<'a>,
    /// The name of the file with the region.
    pub name: &'a str,
    /// The label of the line that the region stands below.
    pub start: &'a str,
    /// The label of the line that the region stands above.
    pub end: &'a str,
}

impl<'a> Command<'a> {
    /// The names of the command's files.
    pub fn names(&self) -> Names<'a>
        ensures { names_of result ≡ names_of_command (shown self.now) }
    {
        Names {
            core: self.task.core_name(),
            input: self.name,
            state: self.task.state_name(),
        }
    }
}

// What `opt` and `demo` are asked for.
fn aim_in(options: &Options) -> Aim
    ensures { shown_aim result ≡ aim_in options.now }
{
    Aim {
        live: options.live,
        free: options.free,
        most: options.most,
        budget: options.budget,
        workers: options.workers,
    }
}

// A job on the core of options, which is in range.
fn on_core(options: &Options, job: Job) -> Option<Task<'_>>
    requires whole { IsWhole options.now }
    requires job { IsRightJob (shown_job job) }
    ensures value { option_map shown_task result
        ≡ option_map (λ core. upon core (shown_job job)) options.now.core }
    ensures range { IfSome result (λ task. HasCore (shown_task task)) }
{
    let Some(core) = &options.core else {
        return None;
    };
    Some(Task::OnCore { core, job })
}

// What is to be done.
fn task_in(options: &Options) -> Option<Task<'_>>
    requires { IsWhole options.now }
    ensures value { option_map shown_task result ≡ task_in options.now.mode options.now }
    ensures range { IfSome result (λ task. HasCore (shown_task task)) }
{
    match options.mode {
        Mode::Cost => on_core(options, Job::Cost),
        Mode::Opt => on_core(options, Job::Opt(aim_in(options))),
        Mode::Demo => on_core(
            options,
            Job::Demo {
                aim: aim_in(options),
                key: options.key,
                count: options.count,
            },
        ),
        Mode::Run => {
            let Some(state) = &options.state else {
                return None;
            };
            Some(Task::Run {
                state: state.text(),
                turns: options.turns,
            })
        }
    }
}

/// The command of options.
pub fn command_in(options: &Options) -> Option<Command<'_>>
    requires { IsWhole options.now }
    ensures value { option_map shown result ≡ command_in options.now }
    ensures range { IfSome result (λ command. HasCore (shown_task command.task)) }
{
    let task = task_in(options)?;
    Some(Command {
        arch: options.arch,
        task,
        name: options.input.text(),
        start: options.start.text(),
        end: options.end.text(),
    })
}
