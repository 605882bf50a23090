//! The parts of an input: a program, and the steps of a certificate behind it.

ghost use Rattle.std.specs.Prelude.{◌≡◌, ◌<◌, ◌≤◌, ◌^◌, true, length};
ghost use Rattle.dl_top.specs.Inputs.{limit_of, is_divided, length_to_steps, program_of, steps_of};

use dl_limits::{MOST_STEPS_TEXT, MOST_TEXT};
use dl_plan::Form;

/// The most bytes of an input of this form.
pub fn limit_of(form: Form) -> usize
    ensures limit { result ≡ limit_of form }
    ensures small { result < 2 ^ 31 }
{
    match form {
        Form::Verify => MOST_STEPS_TEXT,
        _ => MOST_TEXT,
    }
}

/// Whether the first line of a text is `---`.
fn is_divided(text: &[u8]) -> bool
    ensures { result ≡ is_divided text.now }
{
    text.starts_with(b"---\n") || text == b"---".as_slice()
}

/// The number of bytes before the first line that is `---`; all where there is none.
fn length_to_steps(text: &[u8]) -> usize
    ensures length { result ≡ length_to_steps true text.now }
    ensures within { result ≤ length text.now }
{
    let mut begins = true;
    for at in 0..text.len() {
        if begins && is_divided(&text[at..]) {
            return at;
        }
        begins = text[at] == b'\n';
    }
    text.len()
}

/// The program in an input of this form, and the steps behind it: with `verify` the bytes before
/// the first line that is `---`, and those behind its newline; else all of the input, and none.
pub fn parts_of(form: Form, input: &[u8]) -> (&[u8], &[u8])
    ensures program { result.0.now ≡ program_of form input.now }
    ensures steps { result.1.now ≡ steps_of form input.now }
{
    if form != Form::Verify {
        return (input, &[]);
    }
    let end = length_to_steps(input);
    (&input[..end], &input[(end + 4).min(input.len())..])
}
