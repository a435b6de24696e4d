//! A refusal, and the line for it.

use crate::location::Location;
use crate::names::Spelling;
use std::alloc::{AllocError, Global};

/// Where something is refused, why, and what was expected there.
#[derive(Debug, Drop)]
pub struct Refusal {
    /// What the help calls the input that has it, if a job has two: `OLD`, `NEW`, `A` or `B`.
    pub input: Option<&'static str>,
    /// What the help calls the argument that has it, if one has: `FORMAT`, `NAME`, `PATH`, `--name`, ..
    pub argument: Option<&'static str>,
    pub location: Location,
    /// The name of the fault. `None`: nothing is refused, but steps lead nowhere.
    pub fault: Option<&'static str>,
    /// What was expected there, or what is wrong, in ASCII; empty if there is nothing to say.
    pub message: Vec<u8>,
}

impl Refusal {
    /// A refusal with this fault.
    pub fn of(fault: &'static str, location: Location, message: Vec<u8>) -> Refusal {
        Refusal {
            input: None,
            argument: None,
            location,
            fault: Some(fault),
            message,
        }
    }

    /// The same in this argument.
    pub fn in_argument(self, argument: &'static str) -> Refusal {
        Refusal {
            argument: Some(argument),
            ..self
        }
    }

    /// The same in this input.
    pub fn in_input(self, input: &'static str) -> Refusal {
        Refusal {
            input: Some(input),
            ..self
        }
    }

    /// The line for people: `[in INPUT, ]at [ARGUMENT, ]LOCATION[: FAULT][: MESSAGE]`.
    pub fn line(&self, alloc: Global) -> Result<Vec<u8>, AllocError> {
        let mut line = Vec::new(alloc);
        if let Some(input) = self.input {
            line.extend_from_slice(b"in ")?;
            line.extend_from_slice(input.as_bytes())?;
            line.extend_from_slice(b", ")?;
        }
        line.extend_from_slice(b"at ")?;
        self.put_place(&mut line)?;
        if let Some(fault) = self.fault {
            line.extend_from_slice(b": ")?;
            line.extend_from_slice(fault.as_bytes())?;
        }
        if !self.message.is_empty() {
            line.extend_from_slice(b": ")?;
            line.extend_from_slice(&self.message)?;
        }
        Ok(line)
    }

    fn put_place(&self, out: &mut Vec<u8>) -> Result<(), AllocError> {
        if let Some(argument) = self.argument {
            out.extend_from_slice(argument.as_bytes())?;
            if self.location.is_whole() {
                return Ok(());
            }
            out.extend_from_slice(b", ")?;
        }
        self.location.put(Spelling::Shown, out)
    }

    /// The text of the location alone, with names as they are. It is empty if the whole input or argument is refused, or if it
    /// isn't JSON.
    pub fn place(&self, alloc: Global) -> Result<Vec<u8>, AllocError> {
        let mut place = Vec::new(alloc);
        match self.location {
            Location::WholeText | Location::WholeInput | Location::Line(_, _) => {}
            _ => self.location.put(Spelling::Exact, &mut place)?,
        }
        Ok(place)
    }

    /// The message, after the line and the column of an input that isn't JSON, so that place and message have all of them.
    pub fn words(&self, alloc: Global) -> Result<Vec<u8>, AllocError> {
        let mut words = Vec::new(alloc);
        if let Location::Line(_, _) = self.location {
            self.location.put(Spelling::Exact, &mut words)?;
            words.extend_from_slice(b": ")?;
        }
        words.extend_from_slice(&self.message)?;
        Ok(words)
    }
}
