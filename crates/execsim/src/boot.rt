//! The parts of a machine, made from its file, and the machine put together of them: of no more than four parts at
//! once, since each part that can fail multiplies the proof.
ghost use Rattle.std.specs.Prelude.{◌≡◌, ◌≤◌, [], All, length, map, nat_eq, IfOk};
ghost use Rattle.script.specs.{Commands.command_view, Machines.IsMachine, Records.library_view, Records.server_view, Records.softint_view, Records.task_view};
ghost use Rattle.scheduler.specs.Schedule.{unstarted};
ghost use Rattle.softint.specs.{Interrupts.IsPriority, Sources.no_latches};
ghost use Rattle.timerdev.specs.Timing.{new_timer};
ghost use Rattle.execlib.specs.Libraries.{description_of};
ghost use Rattle.execheap.specs.Numbered.{shown_library};
ghost use Rattle.execmodel.specs.State.{State, booted, new_program};
ghost use Rattle.execsim.specs.{Agreement.Agrees, Time.HasTimeFor, Views.IsFor, Views.interrupting};

use crate::bodies::Bodies;
use crate::code::copied_code;
use crate::kernel::Kernel;
use crate::progress::Program;
use execheap::{Heap, LibInit};
use execlist::space::ListSpace;
use scheduler::Sched;
use script::{LibraryRecord, MachineFile, ServerRecord, SoftintRecord, TaskRecord};
use softint::interrupt::{Server, Soft};
use softint::ints::Ints;
use std::alloc::{AllocError, Global};
use taskq::TaskInit;

/// The machine of a file before its start.
pub(crate) fn kernel_of<S: ListSpace>(
    alloc: Global,
    file: &MachineFile,
) -> Result<Kernel<S>, AllocError>
    ensures agrees { IfOk result (λ kernel. Agrees kernel (booted file.now)) }
    ensures time { IfOk result (λ kernel. HasTimeFor 1000000 kernel) }
    ensures machine { IsMachine file.now }
{
    let tasks = file.tasks();
    let (sched, inits, programs) = tasks_of(alloc, tasks, file.quantum())?;
    let memory = heap_of(alloc, file)?;
    let (bodies, ints) = interrupts_of(alloc, file)?;
    Ok(Kernel::new(sched, inits, programs, memory, bodies, ints))
}

/// The names and priorities of the tasks, in the order of the file.
fn inits_of(alloc: Global, tasks: &[TaskRecord]) -> Result<Vec<TaskInit>, AllocError>
    ensures names { IfOk result (λ v. map (λ t. t.name.bytes) v.items ≡ map (λ t. t.name.bytes) tasks.now) }
    ensures pris { IfOk result (λ v. map (λ t. t.pri) v.items ≡ map (λ t. t.pri) tasks.now) }
    ensures count { IfOk result (λ v. length v.items ≡ length tasks.now) }
{
    let mut inits = Vec::new(alloc);
    for task in tasks {
        inits.push(TaskInit {
            name: task.name,
            pri: task.pri,
        })?;
    }
    Ok(inits)
}

/// The program of a task at its first command.
fn program_of(alloc: Global, task: &TaskRecord) -> Result<Program, AllocError>
    ensures { IfOk result (λ p. p ≡ new_program (task_view task.now)) }
{
    let code = copied_code(alloc, &task.code)?;
    Ok(Program::new(code, task.start))
}

/// The programs of the tasks, in the order of the file.
fn programs_of(alloc: Global, tasks: &[TaskRecord]) -> Result<Vec<Program>, AllocError>
    ensures { IfOk result (λ v. v.items ≡ map new_program (map task_view tasks.now)) }
{
    let mut programs = Vec::new(alloc);
    for task in tasks {
        programs.push(program_of(alloc, task)?)?;
    }
    Ok(programs)
}

/// The schedule and the programs of these tasks, and their names and priorities.
fn tasks_of<S: ListSpace>(
    alloc: Global,
    tasks: &[TaskRecord],
    quantum: u8,
) -> Result<(Sched<S>, Vec<TaskInit>, Vec<Program>), AllocError>
    requires few { length tasks.now ≤ 4096 }
    ensures schedule { IfOk result (λ made. made.0 ≡ unstarted (length tasks.now) (map (λ t. t.pri) tasks.now) (map (λ t. t.name.bytes) tasks.now) quantum) }
    ensures room { IfOk result (λ made. length made.1.items ≡ length tasks.now) }
    ensures programs { IfOk result (λ made. made.2.items ≡ map new_program (map task_view tasks.now)) }
{
    let inits = inits_of(alloc, tasks)?;
    let sched = Sched::new(alloc, &inits, quantum)?;
    let programs = programs_of(alloc, tasks)?;
    Ok((sched, inits, programs))
}

/// The priorities of the software interrupts, in the order of the file.
fn softs_of(alloc: Global, softints: &[SoftintRecord]) -> Result<Vec<Soft>, AllocError>
    ensures pris { IfOk result (λ v. map (λ s. s.pri) v.items ≡ map (λ s. s.pri) softints.now) }
    ensures count { IfOk result (λ v. length v.items ≡ length softints.now) }
{
    let mut softs = Vec::new(alloc);
    for softint in softints {
        softs.push(Soft { pri: softint.pri })?;
    }
    Ok(softs)
}

/// The sources and priorities of the servers, in the order of the file.
fn sources_of(alloc: Global, servers: &[ServerRecord]) -> Result<Vec<Server>, AllocError>
    ensures servers { IfOk result (λ v. v.items ≡ map interrupting (map server_view servers.now)) }
    ensures count { IfOk result (λ v. length v.items ≡ length servers.now) }
{
    let mut sources = Vec::new(alloc);
    for server in servers {
        sources.push(Server {
            source: server.source,
            pri: server.pri,
        })?;
    }
    Ok(sources)
}

/// The interrupts of a file: none is pending.
fn ints_of<S: ListSpace>(
    alloc: Global,
    softints: &[SoftintRecord],
    servers: &[ServerRecord],
) -> Result<Ints<S>, AllocError>
    requires few_softints { length softints.now ≤ 32 }
    requires few_servers { length servers.now ≤ 32 }
    requires priorities { All (λ s. IsPriority s.pri) (map softint_view softints.now) }
    ensures { IfOk result (λ ints. ints ≡ record {
      priorities = map (λ s. s.pri) (map softint_view softints.now);
      caused = [];
      latches = no_latches;
      servers = map interrupting (map server_view servers.now);
    }) }
{
    let softs = softs_of(alloc, softints)?;
    let sources = sources_of(alloc, servers)?;
    Ints::new(alloc, &softs, &sources)
}

/// What the interrupts of a file execute, and the interrupts, of which none is pending.
fn interrupts_of<S: ListSpace>(
    alloc: Global,
    file: &MachineFile,
) -> Result<(Bodies, Ints<S>), AllocError>
    ensures bodies { IfOk result (λ made. made.0 ≡ record { softints = file.now.softints; servers = file.now.servers }) }
    ensures belong { IfOk result (λ made. IsFor made.0 made.1) }
    ensures caused { IfOk result (λ made. made.1.caused ≡ []) }
    ensures latches { IfOk result (λ made. made.1.latches ≡ no_latches) }
{
    let bodies = Bodies::new(alloc, file.softints(), file.servers())?;
    let ints = ints_of(alloc, file.softints(), file.servers())?;
    Ok((bodies, ints))
}

/// The libraries, in the order of the file.
fn libraries_of(alloc: Global, libraries: &[LibraryRecord]) -> Result<Vec<LibInit>, AllocError>
    ensures libraries { IfOk result (λ v. map shown_library (map description_of v.items) ≡ map library_view libraries.now) }
    ensures count { IfOk result (λ v. length v.items ≡ length libraries.now) }
{
    let mut inits = Vec::new(alloc);
    for library in libraries {
        inits.push(LibInit {
            name: library.name,
            version: library.version,
            size: library.size,
        })?;
    }
    Ok(inits)
}

/// The memory of a file: nothing is allocated, and no library is loaded; libraries are asked for memory if the file is
/// of version 2.
fn heap_of<S: ListSpace>(alloc: Global, file: &MachineFile) -> Result<Heap<S>, AllocError>
    ensures { IfOk result (λ heap. heap ≡ record {
      regions = file.now.regions;
      libraries = file.now.libraries;
      asks = nat_eq file.now.version 2;
      pool = file.now.pool;
      tasks = length file.now.tasks;
      heap = [];
      public = [];
      timer = new_timer file.now.tick_micros;
    }) }
{
    let inits = libraries_of(alloc, file.libraries())?;
    Heap::new(
        alloc,
        file.regions(),
        file.pool(),
        file.tasks().len(),
        &inits,
        file.version() == 2,
        file.tick_micros(),
    )
}
