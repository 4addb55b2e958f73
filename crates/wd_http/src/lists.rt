//! Lists of calls, moments and files.

use wd_json::{WdBytes, WdList, WdText};

/// Numbers of calls, counted from 1.
pub type CallList = WdList<u64>;

/// Moments of a clock, in milliseconds.
pub type TimeList = WdList<u64>;

/// Files: names with their bytes.
pub type FileList = WdList<(WdText, WdBytes)>;
