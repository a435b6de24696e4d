//! The answer of a call.
ghost use Rattle.std.specs.Prelude.{◌≡◌, ◌≢◌, false, true};
ghost use Rattle.bcs_registry_model.specs.declared.fault.RegistryFault.TheVariants as registry_fault;
ghost use Rattle.bcs_json_spec.specs.declared.json_fault.JsonFault.TheVariants as json_fault;
ghost use Rattle.bcs_calls.specs.declared.status.Status.TheVariants.{Memory, Refused};
ghost use Rattle.bcs_calls.specs.declared.fault.Fault.TheVariants.{Registry, Text};
ghost use Rattle.bcs_calls.specs.Answers.{placed, plain, refusal, sized, stop_at, with_fault, with_fault_at, with_length, with_stop};
ghost use Rattle.bcs_calls.specs.Statuses.{status_number};

use crate::fault::Fault;
use crate::status::Status;
use bcs_decode_spec::Stop;
use bcs_json_spec::JsonFault;
use bcs_registry_model::RegistryFault;

/// The answer of a call. `status` says how it went, and which of the other fields are used; those that aren't are 0.
#[repr(C)]
#[derive(Clone, Copy)]
pub struct Answer {
    /// How the call went.
    pub status: u32,
    /// Why something is refused.
    pub fault: u32,
    /// Where bytes stop being a value, or where a part begins.
    pub place: u64,
    /// The number of bytes, or of those of the message.
    pub length: usize,
}

impl Answer {
    /// The status alone.
    pub(crate) fn plain(status: Status) -> Answer
        ensures { result ≡ plain status }
    {
        Answer {
            status: status.number(),
            fault: 0,
            place: 0,
            length: 0,
        }
    }

    /// The result has `length` bytes.
    pub(crate) fn sized(status: Status, length: usize) -> Answer
        ensures { result ≡ sized status length }
    {
        Answer {
            status: status.number(),
            fault: 0,
            place: 0,
            length,
        }
    }

    /// The result is the `length` bytes at this place.
    pub(crate) fn placed(place: usize, length: usize) -> Answer
        ensures { result ≡ placed place length }
    {
        Answer {
            status: Status::Done.number(),
            fault: 0,
            place: place as u64,
            length,
        }
    }

    /// Something is refused.
    pub(crate) fn refusal(status: Status, fault: Fault) -> Answer
        ensures { result ≡ refusal status fault }
    {
        Answer {
            status: status.number(),
            fault: fault.number(),
            place: 0,
            length: 0,
        }
    }

    /// A registry or a format is refused, with this status, or memory ran out.
    pub(crate) fn registry_refusal(status: Status, fault: RegistryFault) -> Answer
        ensures memory { fault ≡ registry_fault.OutOfMemory → result ≡ plain Memory }
        ensures refusal { fault ≢ registry_fault.OutOfMemory → result ≡ refusal status (Registry fault) }
    {
        if fault == RegistryFault::OutOfMemory {
            Answer::plain(Status::Memory)
        } else {
            Answer::refusal(status, Fault::Registry(fault))
        }
    }

    /// A document is refused, or memory ran out.
    pub(crate) fn text_refusal(fault: JsonFault) -> Answer
        ensures memory { fault ≡ json_fault.OutOfMemory → result ≡ plain Memory }
        ensures refusal { fault ≢ json_fault.OutOfMemory → result ≡ refusal Refused (Text fault) }
    {
        if fault == JsonFault::OutOfMemory {
            Answer::plain(Status::Memory)
        } else {
            Answer::refusal(Status::Refused, Fault::Text(fault))
        }
    }

    /// Bytes stop being a value.
    pub(crate) fn stopped(stop: Stop) -> Answer
        ensures { result ≡ stop_at stop.reason stop.place }
    {
        Answer {
            status: Status::Refused.number(),
            fault: Fault::Stop(stop.reason).number(),
            place: stop.place,
            length: 0,
        }
    }

    /// Whether the input is refused.
    pub(crate) fn is_refused(self) -> bool
        ensures yes { result ≡ true → self.status ≡ status_number Refused }
        ensures no { result ≡ false → self.status ≢ status_number Refused }
    {
        self.status == Status::Refused.number()
    }

    /// The same answer, with this number of bytes.
    pub(crate) fn with_length(self, length: usize) -> Answer
        ensures { result ≡ with_length length self }
    {
        Answer { length, ..self }
    }

    /// The same answer, with the reason why something is refused.
    pub(crate) fn with_fault(self, fault: Fault) -> Answer
        ensures { result ≡ with_fault fault self }
    {
        Answer {
            fault: fault.number(),
            ..self
        }
    }

    /// The same answer, with the reason why something is refused at this place.
    pub(crate) fn with_fault_at(self, fault: Fault, place: u64) -> Answer
        ensures { result ≡ with_fault_at fault place self }
    {
        Answer {
            fault: fault.number(),
            place,
            ..self
        }
    }

    /// The same answer, with the place where bytes stop being a value, if they do.
    pub(crate) fn with_stop(self, stop: Option<Stop>) -> Answer
        ensures { result ≡ with_stop stop self }
    {
        match stop {
            Some(stop) => Answer {
                fault: Fault::Stop(stop.reason).number(),
                place: stop.place,
                ..self
            },
            None => self,
        }
    }
}
