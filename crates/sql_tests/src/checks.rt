//! The names and types of statements, worked out by hand from the rules, over the tables t(a INT, b TEXT) and
//! u(a INT, c TEXT) with an index i ON t(a).

mod changes;
mod selects;
mod statements;
