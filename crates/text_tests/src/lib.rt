//! Texts read: tokens, statements and their bad places, and the words of calls; texts of values and of refusals, and
//! numbers in bytes: all written out by hand.
#![tactic(auto)]

#[cfg(test)]
mod base;
#[cfg(test)]
mod call_words;
#[cfg(test)]
mod showing;
#[cfg(test)]
mod texts;
#[cfg(test)]
mod tokens;
#[cfg(test)]
mod written;
