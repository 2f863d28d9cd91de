//! The first of several lines that isn't as it should be.
ghost use Rattle.std.specs.Prelude.{◌≡◌, ◌+◌, ◌<◌, ◌^◌, length};
ghost use Rattle.report_compare.specs.Compared.{wrong_from};

/// A line that differs, with its number from 1.
#[derive(Clone, Copy, Drop)]
pub struct WrongLine {
    /// The number of the line.
    pub line: u32,
}

/// The number of the line behind these, of which the first has the number `first`, where all are
/// the same; or the first that isn't.
pub fn first_wrong_line(first: u32, same: &[bool]) -> Result<u32, WrongLine>
    requires { first + length same.now < 2 ^ 32 }
    ensures { result ≡ wrong_from first same.now }
{
    let mut line = first;
    for is_same in same {
        if !*is_same {
            return Err(WrongLine { line });
        }
        line += 1;
    }
    Ok(line)
}
