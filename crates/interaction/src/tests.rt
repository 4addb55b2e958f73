//! Tests of rendered texts and of finds on small pages.

mod finds;
mod pages;
mod texts;
