//! The name of a result table, and the name of a function.

ghost use Rattle.std.specs.Prelude.{◌≡◌};
ghost use Rattle.rql_arguments.specs.Forms.{function_named, is_result_word};

use rql::Function;
use values::{NAME_BYTES, all_continue};

/// Whether a text is a word that begins with `rql_`.
pub fn is_result_word(text: &[u8]) -> bool
    ensures { result ≡ is_result_word text.now }
{
    text.len() <= NAME_BYTES && text.starts_with(b"rql_") && all_continue(text)
}

/// The function that a text names, in any case.
pub fn function_named(text: &[u8]) -> Option<Function>
    ensures { result ≡ function_named text.now }
{
    if text.eq_ignore_ascii_case(b"MIN") {
        Some(Function::Min)
    } else if text.eq_ignore_ascii_case(b"MAX") {
        Some(Function::Max)
    } else if text.eq_ignore_ascii_case(b"SUM") {
        Some(Function::Sum)
    } else if text.eq_ignore_ascii_case(b"COUNT") {
        Some(Function::Count)
    } else {
        None
    }
}
