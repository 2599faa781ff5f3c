// The lines of a text, and what a line of a bench list stands for.
ghost use Rattle.std.specs.Prelude.{◌≡◌, ◌+◌, ◌≤◌, drop, length};
ghost use Rattle.std.specs.List.{prefix_len};
ghost use Rattle.bench_list.specs.Lines.{inside, without_return, all_blank, number_of, line_of};

// Why a line that is not skipped is no row: it is no decimal number below 2^32.
#[derive(Clone, Copy, Debug, PartialEq, Eq)]
pub struct NotANumber;

// Where the line that begins at `from` ends: at the next newline, or at the end of the text.
pub fn line_end(text: &[u8], from: usize) -> usize
    ensures { result ≡ from + prefix_len inside (drop from text.now) }
{
    from + line_len(text.get(from..).unwrap_or(&[]))
}

// How many bytes come before the first newline.
fn line_len(text: &[u8]) -> usize
    ensures len { result ≡ prefix_len inside text.now }
    ensures within { result ≤ length text.now }
{
    text.iter().take_while(|b| **b != b'\n').count()
}

// A carriage return at the end of a line does not count.
fn without_return_at_end(line: &[u8]) -> &[u8]
    ensures { result.now ≡ without_return line.now }
{
    line.strip_suffix(b"\r").unwrap_or(line)
}

fn all_blank(line: &[u8]) -> bool
    ensures { result ≡ all_blank line.now }
{
    line.iter().all(|b| matches!(b, b' ' | b'\t'))
}

// The number that the decimal digits spell, where there is nothing else and it is below 2^32.
fn read_number(digits: &[u8]) -> Option<u32>
    ensures { result ≡ number_of digits.now }
{
    let mut value = 0u32;
    for b in digits {
        let digit = char::from(*b).to_digit(10)?;
        value = value.checked_mul(10)?.checked_add(digit)?;
    }
    Some(value)
}

// The row of a line, or nothing where the line is skipped.
pub fn read_line(line: &[u8]) -> Result<Option<u32>, NotANumber>
    ensures { result ≡ line_of line.now }
{
    let text = without_return_at_end(line);
    if all_blank(text) || text.starts_with(b"#") {
        return Ok(None);
    }
    let number = read_number(text).ok_or(NotANumber)?;
    Ok(Some(number))
}
