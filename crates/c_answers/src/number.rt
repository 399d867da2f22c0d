//! The numbers of the results that both libraries return to C.
ghost use Rattle.std.specs.Prelude.{◌≡◌, ◌≤◌};
ghost use Rattle.c_answers.specs.Numbers.{number_of, put_number};
ghost use Rattle.c_answers.specs.Ran.{written};

use crate::misuse::Misuse;
use percpu_gate::Put;

/// The number of a put: 1 if it was the last, else 0.
pub fn put_number(put: Put) -> u32
    ensures number { result ≡ put_number put }
    ensures small { result ≤ 1 }
{
    match put {
        Put::NotLast => 0,
        Put::Last => 1,
    }
}

/// The number of a put, or of the misuse.
pub fn of_put(answer: Result<Put, Misuse>) -> u32
    ensures { result ≡ number_of put_number answer }
{
    match answer {
        Ok(put) => put_number(put),
        Err(why) => why.number(),
    }
}

/// 0, or the number of a misuse.
pub fn of_unit(answer: Result<(), Misuse>) -> u32
    ensures { result ≡ number_of (λ _. 0) answer }
{
    match answer {
        Ok(()) => 0,
        Err(why) => why.number(),
    }
}

/// Writes the value, and returns 0. A misuse writes nothing, and its number is returned.
pub fn write<T: Copy>(answer: Result<T, Misuse>, here: &mut T) -> u32
    ensures number { result ≡ number_of (λ _. 0) answer }
    ensures written { here.new ≡ written answer here.old }
{
    match answer {
        Ok(value) => {
            *here = value;
            0
        }
        Err(why) => why.number(),
    }
}
