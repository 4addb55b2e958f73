//! Why a request gives no parameters.

use wd_errors::Code;
use wd_json::Fault;

/// Why a request gives no parameters: the body, the command or a parameter is refused, with the code
/// `InvalidArgument` or `UnsupportedOperation`, or there was no memory.
pub type ParamFault = Fault<Code>;
