// Where a line ends.
ghost use Rattle.std.specs.Prelude.{◌≡◌, ◌+◌, ◌==◌, length, drop};
ghost use Rattle.std.specs.List.{position};
ghost use Rattle.recording.specs.Lines.{until_feed};

fn feed_in(rest: &[u8]) -> Option<usize>
    ensures { result ≡ position (λ byte. byte == 10) rest.now }
{
    rest.iter().position(|byte| *byte == b'\n')
}

// The place of the next line feed from a place on, or the end of the input where there is none.
pub fn line_end(input: &[u8], at: usize) -> usize
    ensures { result ≡ at + length (until_feed (drop at input.now)) }
{
    if input.len() < at {
        return at;
    }
    let rest = &input[at..];
    at + feed_in(rest).unwrap_or(rest.len())
}
