//! The arguments, with the program's own name as the first. The path by which the program was
//! started need not be a text.
use std::env::{self, Env, FillError};
use std::io;

const NAME: &[u8] = b"undorc";

/// The arguments and the environment of another, but for the first argument.
#[derive(Drop)]
pub struct OwnName<'a, E> {
    rest: &'a E,
}

impl<'a, E: Env> OwnName<'a, E> {
    pub fn new(rest: &'a E) -> OwnName<'a, E> {
        OwnName { rest }
    }
}

impl<E: Env> Env for OwnName<'_, E> {
    fn arg(&self, i: usize, buf: &mut [u8]) -> Result<usize, FillError> {
        if i > 0 {
            return self.rest.arg(i, buf);
        }
        match buf.get_mut(..NAME.len()) {
            Some(front) => {
                front.copy_from_slice(NAME);
                Ok(NAME.len())
            }
            None => Err(FillError::TooLong),
        }
    }

    fn var(&self, name: &str, buf: &mut [u8]) -> Result<usize, FillError> {
        self.rest.var(name, buf)
    }

    fn var_at(&self, i: usize, buf: &mut [u8]) -> Result<usize, FillError> {
        self.rest.var_at(i, buf)
    }
}

/// Returns the arguments, with the program's own name as the first.
pub fn words(rt: &HostRuntime) -> io::Result<Vec<String>> {
    let words = env::args(&(OwnName::new(rt), rt.alloc()))?;
    Ok(words.collect(rt.alloc())?)
}
