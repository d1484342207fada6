// Arguments for the programs, which take none.
ghost use Rattle.std.specs.Prelude.{◌≡◌, ltb};

use std::env::{Env, FillError};

// How many words a program was started with, its own name among them.
pub fn words(rt: &impl Env) -> usize {
    for i in 0..usize::MAX {
        let mut first = [0u8; 1];
        if let Err(FillError::NotPresent) = rt.arg(i, &mut first) {
            return i;
        }
    }
    usize::MAX
}

// Names the first argument on standard error.
fn refuse_argument(rt: &impl Env, errors: &impl Print, program: &[u8]) {
    let mut text = [0u8; 4096];
    let named = rt.arg(1, &mut text);
    let _ = errors.write_all(program);
    match named {
        Ok(n) => {
            let _ = errors.write_all(b" takes no argument: ");
            let _ = errors.write_all(&text[..n]);
        }
        Err(_) => {
            let _ = errors.write_all(b" takes no argument, and this one is over 4,096 bytes");
        }
    }
    let _ = errors.write_all(b"\n");
}

// Whether a program that was started with so many words, its own name among them, was given no argument. One that was given is named on
// standard error.
pub fn none_given(rt: &impl Env, errors: &impl Print, program: &[u8], words: usize) -> bool
    ensures { result ≡ ltb words 2 }
{
    let is_alone = words < 2;
    if !is_alone {
        refuse_argument(rt, errors, program);
    }
    is_alone
}
