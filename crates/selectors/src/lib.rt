//! Selectors (Selectors Level 4, in this project's profile): the grammar by which they are read and
//! printed, and what they name in the tree of a page. The nodes that a selector names are defined
//! from left to right, as sets; the code matches one node at a time from right to left.
#![tactic(auto)]

mod attribute_parts;
mod attributes;
mod candidates;
mod characters;
mod compounds;
mod escapes;
mod fault;
mod forms;
mod laws;
mod left;
mod matching;
mod meets;
mod names;
mod parsing;
mod places;
mod printed_names;
mod printed_steps;
mod printing;
mod pseudo;
mod selecting;
mod selector;
mod simples;
mod steps;
mod strings;
mod texts;

pub use candidates::in_scope;
pub use fault::SelFault;
pub use laws::{nth_is_exact, one_selector};
pub use parsing::parse;
pub use printing::print;
pub use selecting::{first, select};
pub use selector::{Combinator, Complex, Compound, JoinList, Scope, Selector, Simple, Test};
