//! The parameters of commands: which bodies a command takes, and with which code another body is
//! refused (W3C WebDriver, 5 June 2018, sections 6.3 and 8 to 18). It stands on `wd_json` for
//! values, on `endpoints` for commands, on `capabilities` for the lengths of timeouts, and on `url`
//! for addresses.
#![tactic(auto)]

mod body;
mod fault;
mod kind;
mod laws;
mod parameter;
mod reading;
mod refusing;
mod row;
mod values;

pub use fault::ParamFault;
pub use laws::{one_answer_for_body, timeouts_refused_as_read};
pub use reading::read_parameters;

#[cfg(test)]
mod tests;
