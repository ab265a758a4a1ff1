// The C interface, for products in C and Rust: the static library's functions, as capi/fieldbook.h declares them. They take plain numbers
// and lent lists. All but many shots and the calls on a card answer by value and write to no memory of the caller. They trust no caller and
// keep nothing from one call to the next.
#![tactic(auto)]

mod cards;
mod choices;
mod editions;
mod pointings;
mod shots;
