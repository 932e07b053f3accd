//! A value, with a copy where one is wanted.
ghost use Rattle.std.specs.Prelude.{◌≡◌, Bool, IfOk, None as nothing};
ghost use Rattle.core_event.specs.declared.reply.Answer.{Answer};
ghost use Rattle.core_event.specs.declared.reply.Answer.TheVariants.{Done, Id, None, Job, Refused};
ghost use Rattle.core_event.specs.Twice.{twice};

use crate::{Answer, Apart, NoMemory, Notice, Refusal, Reply};
use res_path::Name;
use std::alloc::Global;

/// A value, and a copy of it where one is wanted: a history keeps the one, and a caller gets the other.
#[derive(Drop)]
pub struct Twice<T> {
    pub value: T,
    pub copy: Option<T>,
}

/// That it is done. It takes no memory.
pub fn done_twice(wants_copy: bool) -> Twice<Answer>
    ensures { result ≡ twice wants_copy Done }
{
    Twice {
        value: Answer::Done,
        copy: if wants_copy { Some(Answer::Done) } else { None },
    }
}

/// The number. It takes no memory.
pub fn id_twice(number: u64, wants_copy: bool) -> Twice<Answer>
    ensures { result ≡ twice wants_copy (Id number) }
{
    Twice {
        value: Answer::Id(number),
        copy: if wants_copy {
            Some(Answer::Id(number))
        } else {
            None
        },
    }
}

/// That no job is there to take. It takes no memory.
pub fn no_job_twice(wants_copy: bool) -> Twice<Answer>
    ensures { result ≡ twice wants_copy None }
{
    Twice {
        value: Answer::None,
        copy: if wants_copy { Some(Answer::None) } else { None },
    }
}

/// The job of this name.
pub fn job_twice(alloc: Global, name: &Name, wants_copy: bool) -> Result<Twice<Answer>, NoMemory>
    ensures { IfOk result (λ answer. answer ≡ twice wants_copy (Job name.now)) }
{
    let name = Apart::of(alloc, name.copy()?)?;
    answer_twice(Answer::Job(name), wants_copy)
}

/// That it is refused.
pub fn refused_twice(
    alloc: Global,
    refusal: Refusal,
    wants_copy: bool,
) -> Result<Twice<Answer>, NoMemory>
    ensures { IfOk result (λ answer. answer ≡ twice wants_copy (Refused refusal)) }
{
    let answer = Answer::refused(alloc, refusal)?;
    answer_twice(answer, wants_copy)
}

/// The answer, copied where that is wanted.
pub fn answer_twice(answer: Answer, wants_copy: bool) -> Result<Twice<Answer>, NoMemory>
    ensures { IfOk result (λ a. a ≡ twice wants_copy answer) }
{
    let copy = if wants_copy {
        Some(answer.copy()?)
    } else {
        None
    };
    Ok(Twice {
        value: answer,
        copy,
    })
}

/// The reply, copied where that is wanted.
pub fn reply_twice(reply: Reply, wants_copy: bool) -> Result<Twice<Reply>, NoMemory>
    ensures { IfOk result (λ r. r ≡ twice wants_copy reply) }
{
    let copy = if wants_copy {
        Some(reply.copy()?)
    } else {
        None
    };
    Ok(Twice { value: reply, copy })
}

/// The answer as a reply that tells nothing. It takes no memory.
pub fn untold(answer: Twice<Answer>) -> Twice<Reply>
    ensures { (wanted : Bool) (a : Answer) → answer ≡ twice wanted a → result ≡ twice wanted (record { answer = a; notice = nothing }) }
{
    Twice {
        value: untold_reply(answer.value),
        copy: match answer.copy {
            Some(copy) => Some(untold_reply(copy)),
            None => None,
        },
    }
}

fn untold_reply(answer: Answer) -> Reply
    ensures { result ≡ record { answer = answer; notice = nothing } }
{
    Reply {
        answer,
        notice: Notice::none(),
    }
}
