//! From a command and its files to the text.
ghost use Rattle.std.specs.Prelude.{◌≡◌, ◌≤◌, length, Ok};
ghost use Rattle.std.specs.List.{AllByRecursion};
ghost use Rattle.asm_reader.specs.Regions.{IsRegion};
ghost use Rattle.asm_reader.specs.RegionViews.{region_of};
ghost use Rattle.command_words.specs.Whole.{IsWholeCore};
ghost use Rattle.sl_model.specs.Answers.{Gives, Settles};
ghost use Rattle.sl_model.specs.Lawful.{IsValid};
ghost use Rattle.sl_model.specs.declared.limits.TheConstants.{FILE_BYTES};
ghost use Rattle.slothy_cli.specs.Command.{HasCore, IsRightJob, region_wants};
ghost use Rattle.slothy_cli.specs.Ending.{Seen, files_run, seen_of, Follows, Comes};
ghost use Rattle.slothy_cli.specs.Inputs.{run_answer};
ghost use Rattle.slothy_cli.specs.Outcome.{JobAnswers, WorkAnswers, core_file_reads, core_reads, setting_reads, input_reads, region_reads, job_reads, on_core_reads, state_reads, run_reads};
ghost use Rattle.slothy_cli.specs.Reads.{Given, bytes_of};
ghost use Rattle.demo_kernel.specs.Kernel.{kernel_text};
ghost use Rattle.slothy_cli.specs.Setting.{IsSetting};
ghost use Rattle.slothy_cli.specs.Shown.{shown, shown_job, shown_task, setting_of, stop_told, ended, told};

use crate::command::{Command, Job, Task};
use crate::core_file::{file_core, region_costs};
use crate::cost::cost_text;
use crate::demo::demo_text;
use crate::files::read_file;
use crate::input::{file_region, text_from};
use crate::opt::opt_text;
use crate::setting::Setting;
use crate::status::Ending;
use crate::stop::{Failure, File, Reason, Stop};
use asm_reader::Region;
use command_words::CoreWord;
use core_text::{Core, plain_core};
use demo_kernel::kernel_text;
use sl_base::{Files, Gate};
use sl_isa::{Arch, Instr};
use state_text::{StateErr, run_on_state};
use std::alloc::Global;
use std::thread::Threads;

// What an answer to the files' bytes makes of the call.
fn ended<T>(answer: Result<T, Failure>) -> Result<T, Ending>
    ensures { result ≡ ended answer }
{
    match answer {
        Ok(answer) => Ok(answer),
        Err(failure) => Err(Ending::of(failure)),
    }
}

// What a run answers to the items of a region and the bytes of the state file, of
// which there are at most 1048576.
#[tactic(auto, unfolding(crate::specs::Inputs::run_answer))]
fn run_answer<A: Arch>(
    arch: &A,
    alloc: Global,
    items: &[Instr],
    bytes: &[u8],
) -> Result<Vec<u8>, Failure>
    requires valid { AllByRecursion (IsValid A.language.isa) items.now }
    requires short { length bytes.now ≤ FILE_BYTES }
    ensures { Gives stop_told (λ text. text.items) result
        (run_answer A.language items.now bytes.now) }
{
    let text = text_from(File::State, bytes)?;
    match run_on_state(arch, alloc, items, text) {
        Ok(text) => Ok(text),
        Err(StateErr::StateBad { line }) => Err(Failure::Stopped(Stop::Refused {
            file: File::State,
            line,
            reason: Reason::StateBad,
        })),
        Err(StateErr::NoMemory) => Err(Failure::NoMemory),
    }
}

// The text of a run of the items of a region on the state of a file.
fn text_of_state<A: Arch, F: Files>(
    arch: &A,
    alloc: Global,
    command: &Command<'_>,
    region: &Region<'_>,
    files: &mut F,
) -> Result<Vec<u8>, Ending>
    requires valid { AllByRecursion (IsValid A.language.isa) region.now.items.items }
    ensures same_files { F.holds files.new ≡ F.holds files.old }
    ensures never_falls { F.faults files.old ≤ F.faults files.new }
    ensures follows { Follows
        (seen_of (shown command.now) (F.holds files.old)
        (files_run F.faults F.given F.chosen F.broken files.old files.new))
        (WorkAnswers A.language) (state_reads (region_of region.now))
        (told (λ text. text.items) result) }
{
    match read_file(alloc, command.names(), File::State, files) {
        Ok(bytes) => ended(run_answer(arch, alloc, &region.items, &bytes)),
        Err(ending) => Err(ending),
    }
}

// The text of a run, from the bytes of its input, of which there are at most 1048576.
fn text_of_program<A: Arch, F: Files>(
    arch: &A,
    alloc: Global,
    command: &Command<'_>,
    bytes: &[u8],
    files: &mut F,
) -> Result<Vec<u8>, Ending>
    requires short { length bytes.now ≤ FILE_BYTES }
    ensures same_files { F.holds files.new ≡ F.holds files.old }
    ensures never_falls { F.faults files.old ≤ F.faults files.new }
    ensures follows { Follows
        (seen_of (shown command.now) (F.holds files.old)
        (files_run F.faults F.given F.chosen F.broken files.old files.new))
        (WorkAnswers A.language)
        (input_reads A.language (shown command.now) state_reads bytes.now)
        (told (λ text. text.items) result) }
{
    match file_region(arch, alloc, command, bytes) {
        Ok(region) => text_of_state(arch, alloc, command, &region, files),
        Err(failure) => Err(Ending::of(failure)),
    }
}

// The text of a run.
fn text_of_run<A: Arch, F: Files>(
    arch: &A,
    alloc: Global,
    command: &Command<'_>,
    files: &mut F,
) -> Result<Vec<u8>, Ending>
    ensures same_files { F.holds files.new ≡ F.holds files.old }
    ensures never_falls { F.faults files.old ≤ F.faults files.new }
    ensures follows { Follows
        (seen_of (shown command.now) (F.holds files.old)
        (files_run F.faults F.given F.chosen F.broken files.old files.new))
        (WorkAnswers A.language) (run_reads A.language (shown command.now))
        (told (λ text. text.items) result) }
{
    match read_file(alloc, command.names(), File::Input, files) {
        Ok(bytes) => text_of_program(arch, alloc, command, &bytes, files),
        Err(ending) => Err(ending),
    }
}

// The text of a job on a core.
fn text_of_setting<A: Arch, R: Threads + Sync, G: Gate + Sync>(
    arch: &A,
    rt: &R,
    alloc: Global,
    job: Job,
    setting: Setting<'_, '_>,
    gate: &G,
) -> Result<Vec<u8>, Failure>
    requires setting { IsSetting A.language (setting_of setting) }
    ensures { Settles stop_told (λ text. text.items) result
        (JobAnswers A.language (shown_job job) (setting_of setting.entry)) }
{
    match job {
        Job::Cost => match cost_text(arch, alloc, setting) {
            Ok(text) => Ok(text),
            Err(_) => Err(Failure::NoMemory),
        },
        Job::Opt(aim) => opt_text(arch, rt, alloc, setting, aim, gate),
        Job::Demo { aim, key, count } => {
            demo_text(arch, rt, alloc, setting, aim, key, count, gate)
        }
    }
}

// The text of a job on a core, from its region.
fn text_of_region<A: Arch, R: Threads + Sync, G: Gate + Sync>(
    arch: &A,
    rt: &R,
    alloc: Global,
    job: Job,
    core: &Core,
    region: &Region<'_>,
    gate: &G,
) -> Result<Vec<u8>, Ending>
    requires right { IsRegion A.language region_wants (region_of region.now) }
    ensures follows { (seen : Seen) → Follows seen (WorkAnswers A.language)
        (setting_reads A.language (shown_job job) core.now (region_of region.now))
        (told (λ text. text.items) result) }
{
    match region_costs(arch, alloc, job, core, region) {
        Ok(costs) => ended(text_of_setting(
            arch,
            rt,
            alloc,
            job,
            Setting {
                core,
                region,
                costs: &costs,
            },
            gate,
        )),
        Err(failure) => Err(Ending::of(failure)),
    }
}

// The text of a job on a core, from the bytes of the input, of which there are at most 1048576.
fn text_of_input<A: Arch, R: Threads + Sync, G: Gate + Sync>(
    arch: &A,
    rt: &R,
    alloc: Global,
    command: &Command<'_>,
    job: Job,
    core: &Core,
    bytes: &[u8],
    gate: &G,
) -> Result<Vec<u8>, Ending>
    requires short { length bytes.now ≤ FILE_BYTES }
    ensures follows { (seen : Seen) → Follows seen (WorkAnswers A.language)
        (input_reads A.language (shown command.now)
        (setting_reads A.language (shown_job job) core.now) bytes.now)
        (told (λ text. text.items) result) }
{
    match file_region(arch, alloc, command, bytes) {
        Ok(region) => text_of_region(arch, rt, alloc, job, core, &region, gate),
        Err(failure) => Err(Ending::of(failure)),
    }
}

// The text of a job on a core, from the file of its region.
fn text_of_file<A: Arch, R: Threads + Sync, F: Files, G: Gate + Sync>(
    arch: &A,
    rt: &R,
    alloc: Global,
    command: &Command<'_>,
    job: Job,
    core: &Core,
    files: &mut F,
    gate: &G,
) -> Result<Vec<u8>, Ending>
    ensures same_files { F.holds files.new ≡ F.holds files.old }
    ensures never_falls { F.faults files.old ≤ F.faults files.new }
    ensures follows { Follows
        (seen_of (shown command.now) (F.holds files.old)
        (files_run F.faults F.given F.chosen F.broken files.old files.new))
        (WorkAnswers A.language)
        (region_reads A.language (shown command.now) (shown_job job) core.now (bytes_of File.Input))
        (told (λ text. text.items) result) }
{
    match read_file(alloc, command.names(), File::Input, files) {
        Ok(bytes) => text_of_input(arch, rt, alloc, command, job, core, &bytes, gate),
        Err(ending) => Err(ending),
    }
}

// The text of a job on a core, from the kernel of a key and a number of items.
fn text_of_kernel<A: Arch, R: Threads + Sync, G: Gate + Sync>(
    arch: &A,
    rt: &R,
    alloc: Global,
    command: &Command<'_>,
    job: Job,
    core: &Core,
    key: u64,
    count: u64,
    gate: &G,
) -> Result<Vec<u8>, Ending>
    requires few { count ≤ 64 }
    ensures follows { (seen : Seen) → Follows seen (WorkAnswers A.language)
        (region_reads A.language (shown command.now) (shown_job job) core.now
        (Given (kernel_text key count))) (told (λ text. text.items) result) }
{
    match kernel_text(alloc, key, count) {
        Ok(bytes) => text_of_input(arch, rt, alloc, command, job, core, &bytes, gate),
        Err(_) => Err(Ending::NoMemory),
    }
}

// The text of a job on a core.
fn text_of_job<A: Arch, R: Threads + Sync, F: Files, G: Gate + Sync>(
    arch: &A,
    rt: &R,
    alloc: Global,
    command: &Command<'_>,
    job: Job,
    core: &Core,
    files: &mut F,
    gate: &G,
) -> Result<Vec<u8>, Ending>
    requires right { IsRightJob (shown_job job) }
    ensures same_files { F.holds files.new ≡ F.holds files.old }
    ensures never_falls { F.faults files.old ≤ F.faults files.new }
    ensures follows { Follows
        (seen_of (shown command.now) (F.holds files.old)
        (files_run F.faults F.given F.chosen F.broken files.old files.new))
        (WorkAnswers A.language)
        (job_reads A.language (shown command.now) (shown_job job) core.now)
        (told (λ text. text.items) result) }
{
    match job {
        Job::Cost => text_of_file(arch, rt, alloc, command, job, core, files, gate),
        Job::Opt(_) => text_of_file(arch, rt, alloc, command, job, core, files, gate),
        Job::Demo { key, count, .. } => {
            text_of_kernel(arch, rt, alloc, command, job, core, key, count, gate)
        }
    }
}

// The core of the file that a command names.
fn core_of_file<A: Arch, F: Files>(
    arch: &A,
    alloc: Global,
    command: &Command<'_>,
    files: &mut F,
) -> Result<Core, Ending>
    ensures same_files { F.holds files.new ≡ F.holds files.old }
    ensures never_falls { F.faults files.old ≤ F.faults files.new }
    ensures follows { Follows
        (seen_of (shown command.now) (F.holds files.old)
        (files_run F.faults F.given F.chosen F.broken files.old files.new))
        (λ core answer. answer ≡ Ok core) (core_file_reads A.language) (told (λ core. core) result) }
{
    match read_file(alloc, command.names(), File::Core, files) {
        Ok(bytes) => ended(file_core(arch, alloc, &bytes)),
        Err(ending) => Err(ending),
    }
}

// The core that a word names.
fn core_of_word<A: Arch, F: Files>(
    arch: &A,
    alloc: Global,
    command: &Command<'_>,
    word: &CoreWord,
    files: &mut F,
) -> Result<Core, Ending>
    requires range { IsWholeCore word.now }
    ensures same_files { F.holds files.new ≡ F.holds files.old }
    ensures never_falls { F.faults files.old ≤ F.faults files.new }
    ensures follows { Follows
        (seen_of (shown command.now) (F.holds files.old)
        (files_run F.faults F.given F.chosen F.broken files.old files.new))
        (λ core answer. answer ≡ Ok core) (core_reads A.language word.now)
        (told (λ core. core) result) }
{
    match word {
        CoreWord::Plain { latency } => match plain_core(alloc, arch.name(), *latency as u8) {
            Ok(core) => Ok(core),
            Err(_) => Err(Ending::NoMemory),
        },
        CoreWord::File { .. } => core_of_file(arch, alloc, command, files),
    }
}

// The text of a job on the core that a word names.
fn text_on_core<A: Arch, R: Threads + Sync, F: Files, G: Gate + Sync>(
    arch: &A,
    rt: &R,
    alloc: Global,
    command: &Command<'_>,
    word: &CoreWord,
    job: Job,
    files: &mut F,
    gate: &G,
) -> Result<Vec<u8>, Ending>
    requires range { IsWholeCore word.now }
    requires right { IsRightJob (shown_job job) }
    ensures same_files { F.holds files.new ≡ F.holds files.old }
    ensures never_falls { F.faults files.old ≤ F.faults files.new }
    ensures follows { Follows
        (seen_of (shown command.now) (F.holds files.old)
        (files_run F.faults F.given F.chosen F.broken files.old files.new))
        (WorkAnswers A.language)
        (on_core_reads A.language (shown command.now) word.now (shown_job job))
        (told (λ text. text.items) result) }
{
    match core_of_word(arch, alloc, command, word, files) {
        Ok(core) => text_of_job(arch, rt, alloc, command, job, &core, files, gate),
        Err(ending) => Err(ending),
    }
}

/// The text of a command, from its files.
pub fn text_of_files<A: Arch, R: Threads + Sync, F: Files, G: Gate + Sync>(
    arch: &A,
    rt: &R,
    alloc: Global,
    command: &Command<'_>,
    files: &mut F,
    gate: &G,
) -> Result<Vec<u8>, Ending>
    requires core { HasCore (shown_task command.now.task) }
    ensures same_files { F.holds files.new ≡ F.holds files.old }
    ensures never_falls { F.faults files.old ≤ F.faults files.new }
    ensures comes { Comes A.language (shown command.now)
        (seen_of (shown command.now) (F.holds files.old)
        (files_run F.faults F.given F.chosen F.broken files.old files.new))
        (told (λ text. text.items) result) }
{
    match command.task {
        Task::OnCore { core, job } => text_on_core(
            arch, rt, alloc, command, core, job, files, gate,
        ),
        Task::Run { .. } => text_of_run(arch, alloc, command, files),
    }
}
