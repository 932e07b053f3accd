//! What becomes of a job.
ghost use Rattle.std.specs.Prelude.{◌≡◌};
ghost use Rattle.job_queue.specs.States.{state_number, is_over, is_sleeping, is_waiting, is_running, is_live, may_be_cancelled};

/// What becomes of a job, as the platform's `Job` has it.
#[derive(Clone, Copy, Debug, PartialEq, Eq)]
pub enum JobState {
    /// It was finished or cancelled.
    None,
    /// It is scheduled, and isn't run before it is woken.
    Sleeping,
    /// It is scheduled, and is run once its turn has come.
    Waiting,
    /// It is run.
    Running,
}

impl JobState {
    /// The platform's number: 0 for `NONE`, 1 for `SLEEPING`, 2 for `WAITING`, 4 for `RUNNING`.
    pub fn number(self) -> u8
        ensures { result ≡ state_number self }
    {
        match self {
            JobState::None => 0,
            JobState::Sleeping => 1,
            JobState::Waiting => 2,
            JobState::Running => 4,
        }
    }

    /// Whether the job was finished or cancelled.
    pub fn is_over(self) -> bool
        ensures { result ≡ is_over self }
    {
        match self {
            JobState::None => true,
            JobState::Sleeping | JobState::Waiting | JobState::Running => false,
        }
    }

    /// Whether the job sleeps.
    pub fn is_sleeping(self) -> bool
        ensures { result ≡ is_sleeping self }
    {
        match self {
            JobState::Sleeping => true,
            JobState::None | JobState::Waiting | JobState::Running => false,
        }
    }

    /// Whether the job waits.
    pub fn is_waiting(self) -> bool
        ensures { result ≡ is_waiting self }
    {
        match self {
            JobState::Waiting => true,
            JobState::None | JobState::Sleeping | JobState::Running => false,
        }
    }

    /// Whether the job is run.
    pub fn is_running(self) -> bool
        ensures { result ≡ is_running self }
    {
        match self {
            JobState::Running => true,
            JobState::None | JobState::Sleeping | JobState::Waiting => false,
        }
    }

    /// Whether the job waits or is run.
    pub fn is_live(self) -> bool
        ensures { result ≡ is_live self }
    {
        match self {
            JobState::Waiting | JobState::Running => true,
            JobState::None | JobState::Sleeping => false,
        }
    }

    /// Whether the job waits or sleeps.
    pub fn may_be_cancelled(self) -> bool
        ensures { result ≡ may_be_cancelled self }
    {
        match self {
            JobState::Sleeping | JobState::Waiting => true,
            JobState::None | JobState::Running => false,
        }
    }
}
