// Why a call failed, and how often it polled an update until then.
ghost use Rattle.std.specs.Prelude.{◌≡◌, Some};
ghost use Rattle.uart_config.specs.Faults.{refusing, overdue, fault_text};

use super::step::Step;
use std::error::Error;
use std::fmt;
use uart_rate::refusal::Refusal;

#[derive(Clone, Copy, PartialEq, Eq, Debug, Hash)]
pub struct Fault {
    pub refusal: Refusal,
    // the step whose update timed out; no other refusal names one. A reply has a number, a step and the reads, so all three stand side by side, and no enum of two cases
    pub step: Option<Step>,
    // all polls of the call
    pub reads: u32,
}

impl Fault {
    // A test that failed.
    pub fn refused(refusal: Refusal, reads: u32) -> Fault
        ensures { result ≡ refusing refusal reads }
    {
        Fault {
            refusal,
            step: None,
            reads,
        }
    }

    // An update that still stands.
    pub fn timed_out(step: Step, reads: u32) -> Fault
        ensures { result ≡ overdue step reads }
    {
        Fault {
            refusal: Refusal::UpdateTimedOut,
            step: Some(step),
            reads,
        }
    }
}

// What a person is told.
impl fmt::Display for Fault {
    ghost output = { λ fault. Some (fault_text fault) };

    fn fmt<W: fmt::Write>(&self, f: &mut fmt::Formatter<W>) -> fmt::Result {
        let Fault {
            refusal,
            step,
            reads,
        } = *self;
        let Some(step) = step else {
            return write!(f, "{refusal} after {reads} reads");
        };
        let number = step.number();
        write!(f, "{refusal} in step {number} after {reads} reads")
    }
}

impl Error for Fault {}

// A refusal before the first poll of a call.
impl From<Refusal> for Fault {
    ghost from_gives = { λ refusal fault. fault ≡ refusing refusal 0 };

    fn from(refusal: Refusal) -> Fault {
        Fault::refused(refusal, 0)
    }
}
