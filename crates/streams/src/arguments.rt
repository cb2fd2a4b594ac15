// The arguments that a program was given, as bytes: argument 0 is its name.
ghost use Rattle.std.specs.Prelude.{◌≤◌, length};

use std::env::{Env, FillError};

// Whether there is such an argument.
pub fn is_given<R: Env>(rt: &R, i: usize) -> bool {
    !matches!(rt.arg(i, &mut []), Err(FillError::NotPresent))
}

// Puts an argument at the start of buf and answers its length, 0 where it is missing or longer than buf: no caller tells these from an empty one.
pub fn argument<R: Env>(rt: &R, i: usize, buf: &mut [u8]) -> usize
    ensures { result ≤ length buf.new }
{
    rt.arg(i, buf).unwrap_or(0)
}
