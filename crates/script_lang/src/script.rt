//! Scripts: phases of jobs of commands.
ghost use Rattle.std.specs.Prelude.{◌≡◌, ◌++◌, ◌∷◌, [], IfOk, OnOk, OnErr};
ghost use Rattle.script_lang.specs.Commands.{priority_number};
ghost use Rattle.script_lang.specs.Names.{HaveOwnNames};

use crate::NoMemory;
use builder_api::BuildKind;
use op_kind::Op;
use res_path::Name;
use save_kind::SaveKind;
use script_parts::ScriptRule;
use std::alloc::Global;
use std::marker::Model;

/// One command of a job.
#[derive(Drop)]
pub enum Command {
    /// An operation on resources is done.
    Operation(Op),
    /// A batch begins.
    Batch,
    /// The innermost batch ends.
    EndBatch,
    /// Listeners are told what the batch changed so far (`IWorkspace.checkpoint`).
    Checkpoint,
    /// A rule is begun (`IJobManager.beginRule`).
    Begin(ScriptRule),
    /// A rule is begun if that needs no waiting.
    TryBegin(ScriptRule),
    /// The rule that was begun last ends (`IJobManager.endRule`).
    End(ScriptRule),
    /// The job of this name is put to sleep (`Job.sleep`).
    Sleep(Name),
    /// The job of this name is woken (`Job.wakeUp`).
    Wake(Name),
    /// The job of this name is cancelled (`Job.cancel`).
    Cancel(Name),
    /// The workspace is built, or the project of this name (`IWorkspace.build`, `IProject.build`).
    Build(BuildKind, Option<Name>),
    /// The workspace is saved (`IWorkspace.save`).
    Save(SaveKind),
}

/// Commands in the order in which they are run. A contract sees the list.
#[derive(Drop)]
pub struct Commands {
    items: Vec<Command>,
}

impl Model for Commands {
    ghost use Rattle.std.specs.Prelude.{List};
    ghost use Rattle.script_lang.specs.declared.script.Command.{Command};

    ghost Value = { List Command };

    ghost view = { λ c. c.items.items };
}

impl Commands {
    /// No commands. It takes no memory.
    pub fn new(alloc: Global) -> Commands
        ensures { result ≡ [] }
    {
        Commands {
            items: Vec::new(alloc),
        }
    }

    /// One more command, after the others. After want of memory the commands are as they were.
    pub fn push(&mut self, command: Command) -> Result<(), NoMemory>
        ensures ok { OnOk result (self.new ≡ self.old ++ command ∷ []) }
        ensures err { OnErr result (self.new ≡ self.old) }
    {
        self.items.push(command)?;
        Ok(())
    }

    /// The commands, in order.
    pub fn as_slice(&self) -> &[Command]
        ensures { result.now ≡ self.now }
    {
        self.items.as_slice()
    }

    /// The commands, in order, each to be taken.
    pub fn into_vec(self) -> Vec<Command>
        ensures { result.items ≡ self }
    {
        let Commands { items } = self;
        items
    }

    /// Equal commands, which share their texts.
    pub fn copy(&self) -> Result<Commands, NoMemory>
        ensures { IfOk result (λ copy. copy ≡ self.now) }
    {
        Ok(Commands {
            items: self.items.clone()?,
        })
    }
}

/// How urgent a job is: the less its number, the sooner it is taken.
#[derive(Clone, Copy)]
pub enum Priority {
    /// 10 (`Job.INTERACTIVE`).
    Interactive,
    /// 20 (`Job.SHORT`).
    Short,
    /// 30 (`Job.LONG`).
    Long,
    /// 40 (`Job.BUILD`).
    Build,
    /// 50 (`Job.DECORATE`).
    Decorate,
}

impl Priority {
    /// The priority's number: 10, 20, 30, 40 or 50.
    pub fn number(self) -> u8
        ensures { result ≡ priority_number self }
    {
        match self {
            Priority::Interactive => 10,
            Priority::Short => 20,
            Priority::Long => 30,
            Priority::Build => 40,
            Priority::Decorate => 50,
        }
    }
}

/// A job: its name, its priority, whether it is scheduled asleep, the rule that it asks for and its commands.
#[derive(Drop)]
pub struct Job {
    pub name: Name,
    pub priority: Priority,
    pub asleep: bool,
    pub rule: ScriptRule,
    pub commands: Commands,
}

/// The jobs of a phase, in the order in which they are scheduled. Their names differ. A contract sees the list.
#[derive(Drop)]
pub struct Jobs {
    items: Vec<Job>,
}

impl Model for Jobs {
    ghost use Rattle.std.specs.Prelude.{List};
    ghost use Rattle.script_lang.specs.declared.script.Job.{Job};
    ghost use Rattle.script_lang.specs.Names.{HaveOwnNames};

    ghost Value = { List Job };

    ghost view = { λ j. j.items.items };

    ghost invariant = { λ j. HaveOwnNames j.items.items };
}

impl Jobs {
    /// These jobs, in this order. It takes no memory.
    pub fn of(items: Vec<Job>) -> Jobs
        requires { HaveOwnNames items.items }
        ensures { result ≡ items.items }
    {
        Jobs { items }
    }

    /// The jobs, in order.
    pub fn as_slice(&self) -> &[Job]
        ensures jobs { result.now ≡ self.now }
        ensures names { HaveOwnNames self.now }
    {
        self.items.as_slice()
    }

    /// The jobs, in order, each to be taken.
    pub fn into_vec(self) -> Vec<Job>
        ensures jobs { result.items ≡ self }
        ensures names { HaveOwnNames self }
    {
        let Jobs { items } = self;
        items
    }

    /// Equal jobs, which share their texts.
    pub fn copy(&self) -> Result<Jobs, NoMemory>
        ensures { IfOk result (λ copy. copy ≡ self.now) }
    {
        Ok(Jobs {
            items: self.items.clone()?,
        })
    }
}

/// A phase: jobs that are run beside one another.
#[derive(Drop)]
pub struct Phase {
    pub jobs: Jobs,
}

/// The phases of a script, in the order in which they are run. A contract sees the list.
#[derive(Drop)]
pub struct Phases {
    items: Vec<Phase>,
}

impl Model for Phases {
    ghost use Rattle.std.specs.Prelude.{List};
    ghost use Rattle.script_lang.specs.declared.script.Phase.{Phase};

    ghost Value = { List Phase };

    ghost view = { λ p. p.items.items };
}

impl Phases {
    /// No phases. It takes no memory.
    pub fn new(alloc: Global) -> Phases
        ensures { result ≡ [] }
    {
        Phases {
            items: Vec::new(alloc),
        }
    }

    /// One more phase, after the others. After want of memory the phases are as they were.
    pub fn push(&mut self, phase: Phase) -> Result<(), NoMemory>
        ensures ok { OnOk result (self.new ≡ self.old ++ phase ∷ []) }
        ensures err { OnErr result (self.new ≡ self.old) }
    {
        self.items.push(phase)?;
        Ok(())
    }

    /// The phases, in order.
    pub fn as_slice(&self) -> &[Phase]
        ensures { result.now ≡ self.now }
    {
        self.items.as_slice()
    }

    /// The phases, in order, each to be taken.
    pub fn into_vec(self) -> Vec<Phase>
        ensures { result.items ≡ self }
    {
        let Phases { items } = self;
        items
    }

    /// Equal phases, which share their texts.
    pub fn copy(&self) -> Result<Phases, NoMemory>
        ensures { IfOk result (λ copy. copy ≡ self.now) }
    {
        Ok(Phases {
            items: self.items.clone()?,
        })
    }
}

/// A script: phases, one after another.
#[derive(Drop)]
pub struct Script {
    pub phases: Phases,
}
