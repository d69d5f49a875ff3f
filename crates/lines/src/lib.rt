//! Lines of bounded length from any reader, and their text.
#![tactic(auto)]

ghost use Rattle.std.specs.Prelude.{◌≡◌, ◌≤◌, IfOk, IfSome, OnOk, MatchResult, IsUtf8, vec_len};
ghost use Rattle.std.specs.Str.Lossy.{utf8_valid_len};
ghost use Rattle.std.specs.Io.BufRead.{DropsThrough};
ghost use Rattle.tokens.specs.declared.fault.Fault.TheVariants.{Text};
ghost use Rattle.lines.specs.Lines.{longest, outcome, kept, without_return};
ghost use Rattle.lines.specs.Steps.{Moved, Gathered};

use std::io;
use std::io::{BufRead, Read};
use tokens::Fault;

/// The longest line that is kept; a longer one is read to its end and refused.
const LONGEST: usize = 65536;

/// Moves what the reader shows behind the line, through a line feed and at most `room` bytes; how many those are.
fn move_part<R: BufRead>(input: &mut R, room: usize, line: &mut Vec<u8>) -> io::Result<usize>
    ensures { IfOk result (λ n. Moved (R.remaining input.old) (R.remaining input.new) room n line.old.items line.new.items) }
{
    let shown = input.fill_buf()?;
    let moved = shown.take(room as u64).read_until(b'\n', line)?;
    input.consume(moved);
    Ok(moved)
}

/// Reads through a line feed, and at most `most` bytes, into the buffer.
fn gather<R: BufRead>(input: &mut R, most: usize, line: &mut Vec<u8>) -> io::Result<()>
    ensures { OnOk result (Gathered (R.remaining input.old) (R.remaining input.new) most line.new.items) }
{
    // The contract of `take(most).read_until(..)` does not tell what the reader has left past that limit.
    line.clear();
    let mut room = most;
    while room > 0 {
        let moved = move_part(input, room, line)?;
        if moved == 0 || line.ends_with(b"\n") {
            break;
        }
        room -= moved;
    }
    Ok(())
}

/// Reads a line, without its line feed, into the buffer; none at the end of the input. A line that is too long is read to its end.
pub fn next_line<R: BufRead>(
    input: &mut R,
    line: &mut Vec<u8>,
) -> io::Result<Option<Result<(), Fault>>>
    ensures outcome { IfOk result (λ r. IfSome (R.remaining input.old) (λ xs. r ≡ outcome xs)) }
    ensures kept { OnOk result (IfSome (R.remaining input.old) (λ xs. line.new.items ≡ kept xs)) }
    ensures rest { OnOk result (DropsThrough (R.remaining input.old) (R.remaining input.new) 10) }
    ensures bound { IfOk result (λ r. IfSome r (λ told. OnOk told (vec_len line.new ≤ longest))) }
{
    gather(input, LONGEST + 1, line)?;
    if line.is_empty() {
        return Ok(None);
    }
    if line.ends_with(b"\n") {
        line.pop();
    } else if line.len() > LONGEST {
        input.skip_until(b'\n')?;
        return Ok(Some(Err(Fault::Long)));
    }
    Ok(Some(Ok(())))
}

/// The text of a line, without a carriage return at its end.
pub fn text_of(line: &[u8]) -> Result<&str, Fault>
    ensures { MatchResult result (λ text. (text.now ≡ without_return line.now) × IsUtf8 (without_return line.now))
        (λ f. (IsUtf8 (without_return line.now) → ⊥) × (f ≡ Text (utf8_valid_len (without_return line.now)))) }
{
    let line = line.strip_suffix(b"\r").unwrap_or(line);
    std::str::from_utf8(line).map_err(|e| Fault::Text {
        column: e.valid_up_to(),
    })
}

#[cfg(test)]
mod tests {
    use super::*;
    use std::test::Fail;

    #[test]
    fn lines_end_with_the_input(rt: HostRuntime) -> Result<(), Fail> {
        let mut input: &[u8] = b"const p\r\n\nop";
        let mut line = Vec::new(rt.alloc());
        assert_eq!(rt; next_line(&mut input, &mut line)?, Some(Ok(())));
        assert_eq!(rt; text_of(&line), Ok("const p"));
        assert_eq!(rt; next_line(&mut input, &mut line)?, Some(Ok(())));
        assert_eq!(rt; text_of(&line), Ok(""));
        assert_eq!(rt; next_line(&mut input, &mut line)?, Some(Ok(())));
        assert_eq!(rt; text_of(&line), Ok("op"));
        assert_eq!(rt; next_line(&mut input, &mut line)?, None);
        Ok(())
    }

    #[test]
    fn long_lines_are_read_to_their_end(rt: HostRuntime) -> Result<(), Fail> {
        let heap = rt.alloc();
        let mut text = vec![in heap; b'a'; LONGEST]?;
        text.push(b'\n')?;
        for _ in 0..LONGEST + 1 {
            text.push(b'b')?;
        }
        text.extend_from_slice(b"\nop\n")?;
        let mut input = text.as_slice();
        let mut line = Vec::new(heap);
        assert_eq!(rt; next_line(&mut input, &mut line)?, Some(Ok(())));
        assert_eq!(rt; line.len(), LONGEST);
        assert_eq!(rt; next_line(&mut input, &mut line)?, Some(Err(Fault::Long)));
        assert_eq!(rt; next_line(&mut input, &mut line)?, Some(Ok(())));
        assert_eq!(rt; text_of(&line), Ok("op"));
        assert_eq!(rt; next_line(&mut input, &mut line)?, None);
        Ok(())
    }

    #[test]
    fn bytes_that_are_no_text_are_refused_at_their_column(rt: HostRuntime) {
        assert_eq!(rt; text_of(b"op \xff"), Err(Fault::Text { column: 3 }));
        assert_eq!(rt; text_of(b"op\r\r"), Ok("op\r"));
    }
}
