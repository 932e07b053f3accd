//! One pass.
ghost use Rattle.std.specs.Prelude.{◌≡◌, IfOk};
ghost use Rattle.pass_table.specs.Passes.{idle};

use crate::NoMemory;
use res_path::Name;

/// What a pass has, but for its rules.
#[derive(Debug, Drop)]
pub struct Pass {
    /// The name of the job that it runs.
    pub job: Option<Name>,
    /// How many batches it has open, as `IWorkspace.run` opens them.
    pub batches: u64,
}

impl Pass {
    /// A pass without a job and an open batch.
    pub fn idle() -> Pass
        ensures { result ≡ idle }
    {
        Pass {
            job: None,
            batches: 0,
        }
    }

    /// An equal pass, which shares the name's text.
    pub fn copy(&self) -> Result<Pass, NoMemory>
        ensures { IfOk result (λ copy. copy ≡ self.now) }
    {
        Ok(Pass {
            job: self.job.clone()?,
            batches: self.batches,
        })
    }
}

impl Clone for Pass {
    ghost use Rattle.std.specs.Prelude.{◌≡◌};

    ghost is_clone = { λ pass copy. copy ≡ pass };

    fn clone(&self) -> Result<Pass, NoMemory> {
        self.copy()
    }
}
