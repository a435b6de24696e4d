//! Finds objects with two members of the same name.

use crate::place::{Place, put_index, put_step};
use crate::refusal::{MoveFault, MoveRefusalName, refusal};
use json::{Reader, Scratch, Token};
use std::alloc::{AllocError, Global};
use std::collections::BTreeSet;

/// An object or array that the reader is in.
#[derive(Drop)]
struct Level<'a> {
    /// The names of an object's members so far.
    names: BTreeSet<&'a str>,
    /// The name of an object's current member. `None`: this is an array.
    name: Option<&'a str>,
    /// The number of an array's items so far.
    items: usize,
}

/// The objects and arrays that the reader is in, outermost first.
#[derive(Drop)]
struct Levels<'a> {
    open: Vec<Level<'a>>,
}

impl<'a> Levels<'a> {
    /// Takes a token into account, and returns whether it is a name that its object already has.
    fn repeats(&mut self, alloc: Global, token: Token<'a>) -> Result<bool, AllocError> {
        match token {
            Token::Key(name) => return self.repeats_name(name),
            Token::EndObject | Token::EndArray => drop(self.open.pop()),
            Token::BeginObject | Token::BeginArray => {
                self.count_item();
                self.open.push(Level {
                    names: BTreeSet::new(alloc),
                    name: None,
                    items: 0,
                })?;
            }
            _ => self.count_item(),
        }
        Ok(false)
    }

    fn repeats_name(&mut self, name: &'a str) -> Result<bool, AllocError> {
        match self.open.last_mut() {
            Some(level) => {
                level.name = Some(name);
                Ok(!level.names.insert(name)?)
            }
            None => Ok(false),
        }
    }

    /// Counts the value that begins, if it is an item of an array.
    fn count_item(&mut self) {
        if let Some(level) = self.open.last_mut() {
            level.items = level.items.saturating_add(1);
        }
    }

    /// The JSON Pointer of the current value.
    fn pointer(&self, alloc: Global) -> Result<String, AllocError> {
        let mut pointer = String::new(alloc);
        for level in &self.open {
            match level.name {
                Some(name) => put_step(name, &mut pointer)?,
                None => put_index(level.items.saturating_sub(1), &mut pointer)?,
            }
        }
        Ok(pointer)
    }
}

/// Refuses JSON in which an object has two members with the same name.
pub(crate) fn refuse_repeated_members(alloc: Global, text: &str) -> Result<(), MoveFault> {
    let mut scratch = Scratch::new(alloc);
    let mut reader = Reader::new(text, &mut scratch)?;
    let mut levels = Levels {
        open: Vec::new(alloc),
    };
    // Each token has at least one byte.
    for _ in 0..text.len() {
        let Some(token) = reader.next() else {
            break;
        };
        if levels.repeats(alloc, token)? {
            let pointer = levels.pointer(alloc)?;
            let message = "the object has another member with this name: delete one";
            let place = Place::At(pointer.as_str());
            return Err(refusal(alloc, MoveRefusalName::RepeatedMember, &place, message));
        }
    }
    Ok(())
}
