// What a call that moves bytes answered, in numbers, so that what follows from it is a function of values.
ghost use Rattle.std.specs.Prelude.{◌≡◌};
ghost use Rattle.buffer.specs.Answer.{answer_of};

// How many bytes a call moved, or the system's number of its error, which is 0 where the error is none of the system's.
pub fn answer_of(answered: std::io::Result<usize>) -> Result<usize, i32>
    ensures { result ≡ answer_of answered }
{
    answered.map_err(|error| error.raw_os_error().unwrap_or(0))
}
