//! Why what concerns the services isn't done.
use core_event::Refusal;
use std::alloc::AllocError;

/// Why what concerns the services isn't done: it is refused, or memory wants.
#[derive(Drop)]
pub enum ServiceError {
    Refused(Refusal),
    Memory,
}

impl From<Refusal> for ServiceError {
    ghost use Rattle.std.specs.Prelude.{◌≡◌};
    ghost use Rattle.service_desk.specs.declared.error.ServiceError.TheVariants.{Refused};

    ghost from_gives = { λ refusal e. e ≡ Refused refusal };

    fn from(refusal: Refusal) -> ServiceError {
        ServiceError::Refused(refusal)
    }
}

impl From<AllocError> for ServiceError {
    ghost use Rattle.std.specs.Prelude.{◌≡◌};
    ghost use Rattle.service_desk.specs.declared.error.ServiceError.TheVariants.{Memory};

    ghost from_gives = { λ _ e. e ≡ Memory };

    fn from(_: AllocError) -> ServiceError {
        ServiceError::Memory
    }
}
