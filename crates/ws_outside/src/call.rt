// What a disk in memory remembers of a call.
ghost use Rattle.std.specs.Prelude.{◌≡◌, IfOk};

use crate::{NoMemory, Octets, Which};
use std::alloc::Global;

/// What a call asked of an area.
#[derive(Debug, Drop)]
pub enum Request {
    Len,
    Read { at: u64, len: u64 },
    Write { at: u64, bytes: Octets },
    Cut { len: u64 },
    Sync,
}

impl Request {
    /// An equal value.
    pub fn copy(&self, alloc: Global) -> Result<Request, NoMemory>
        ensures { IfOk result (λ copy. copy ≡ self.now) }
    {
        match self {
            Request::Len => Ok(Request::Len),
            Request::Read { at, len } => Ok(Request::Read { at: *at, len: *len }),
            Request::Write { at, bytes } => Ok(Request::Write {
                at: *at,
                bytes: bytes.copy(alloc)?,
            }),
            Request::Cut { len } => Ok(Request::Cut { len: *len }),
            Request::Sync => Ok(Request::Sync),
        }
    }
}

/// One call, and whether it was done.
#[derive(Debug, Drop)]
pub struct Call {
    pub area: Which,
    pub request: Request,
    pub done: bool,
}

impl Call {
    /// An equal value.
    pub fn copy(&self, alloc: Global) -> Result<Call, NoMemory>
        ensures { IfOk result (λ copy. copy ≡ self.now) }
    {
        Ok(Call {
            area: self.area,
            request: self.request.copy(alloc)?,
            done: self.done,
        })
    }
}
