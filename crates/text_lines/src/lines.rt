//! Where a line ends, and which lines are remarks.
ghost use Rattle.std.specs.Prelude.{◌≡◌, ◌<◌, length, position};
ghost use Rattle.std.specs.Option.{ForSome};
ghost use Rattle.text_lines.specs.Lines.{is_lf, is_remark};

/// The place of the first LF.
pub(crate) fn end_of_line(octets: &[u8]) -> Option<usize>
    ensures place { result ≡ position is_lf octets.now }
    ensures within { ForSome result (λ place. place < length octets.now) }
{
    octets.iter().position(|c| *c == b'\n')
}

/// Whether the line is empty or begins with `#`.
pub fn is_passed_over(line: &[u8]) -> bool
    ensures { result ≡ is_remark line.now }
{
    match line {
        [] => true,
        [first, ..] => *first == b'#',
    }
}
