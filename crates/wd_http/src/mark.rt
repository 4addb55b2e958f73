//! The end of a head block, found byte by byte.
ghost use Rattle.std.specs.Prelude.{◌≡◌, ◌≤◌, ◌+◌, List, ℕ, MatchResult, Some, None, length};
ghost use Rattle.wd_http.specs.Marks.{step, block_end, mark_after};

/// Where a byte stands in a head block.
#[derive(Clone, Copy, Debug, PartialEq, Eq)]
pub(crate) enum Mark {
    /// At the start of a line, with only empty lines before it.
    Blank,
    /// The same, behind a carriage return.
    BlankReturn,
    /// In a line that isn't empty.
    Text,
    /// At the start of a line behind one that isn't empty.
    Start,
    /// The same, behind a carriage return.
    StartReturn,
}

impl Mark {
    /// The mark behind a byte, or none where the byte ends the block.
    fn after(self, byte: u8) -> Option<Mark>
        ensures { result ≡ step self byte }
    {
        match (self, byte) {
            (Mark::Blank | Mark::BlankReturn, b'\n') => Some(Mark::Blank),
            (Mark::Blank, b'\r') => Some(Mark::BlankReturn),
            (Mark::Text, b'\n') => Some(Mark::Start),
            (Mark::Start | Mark::StartReturn, b'\n') => None,
            (Mark::Start, b'\r') => Some(Mark::StartReturn),
            _ => Some(Mark::Text),
        }
    }
}

/// The length up to the end of the block, or the mark behind the bytes.
pub(crate) fn find_end(bytes: &[u8], mark: Mark) -> Result<usize, Mark>
    ensures { MatchResult result (λ n. block_end bytes.now mark ≡ Some n)
        (λ m. (block_end bytes.now mark ≡ None) × (mark_after bytes.now mark ≡ m)) }
{
    let mut at = mark;
    for (i, byte) in bytes.iter().enumerate() {
        match at.after(*byte) {
            Some(next) => at = next,
            None => return Ok(i + 1),
        }
    }
    Err(at)
}
