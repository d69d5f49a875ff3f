//! Lines in, replies out.
ghost use Rattle.std.specs.Prelude.{◌≡◌, ℕ, ◌+◌, ◌^◌, ◌<◌, ◌-◌, List, ◌++◌, length, Some, IfOk, IfSome, OnOk, MatchResult};
ghost use Rattle.std.specs.Io.KnownBytes.{Appends};
ghost use Rattle.lines.specs.Lines.{lines_of};
ghost use Rattle.service.specs.Served.{printed, HasText, HasNoText, SaidTo, Served};

use crate::counts::Counts;
use crate::replier::Replier;
use desk::{Reply, refusal};
use lines::{next_line, text_of};
use std::alloc::{AllocError, Global};
use std::io;
use std::io::{BufRead, Write};
use tokens::Fault;

/// The text of the line that was read, which may be too long, or no text.
fn text_read(read: Result<(), Fault>, line: &[u8]) -> Result<&str, Fault>
    ensures { MatchResult result (λ text. HasText read line.now text.now) (λ f. HasNoText read line.now f) }
{
    read?;
    text_of(line)
}

/// What is said to the line that was read, which may be too long, or no text.
fn said<D: Replier>(
    replier: &mut D,
    heap: Global,
    number: u64,
    read: Result<(), Fault>,
    line: &[u8],
) -> Result<Reply, AllocError>
    ensures { IfOk result (λ reply. SaidTo D.Says replier.old number read line.now reply replier.new) }
{
    match text_read(read, line) {
        Ok(text) => replier.reply_to(heap, number, text),
        Err(fault) => Ok(Reply::Refusal(refusal(heap, number, fault)?)),
    }
}

/// Prints a reply on a line of its own.
fn print<W: Write>(output: &mut W, reply: Reply) -> io::Result<()>
    ensures { OnOk result (Appends (W.contents output.old) (W.contents output.new) (printed reply)) }
{
    match reply {
        Reply::Nothing => Ok(()),
        Reply::Answer(text) | Reply::Refusal(text) => writeln!(output, "{text}"),
    }
}

/// Replies to each line of the input, and prints the replies, and how many lines were answered and refused.
pub fn serve<D: Replier, R: BufRead, W: Write>(
    replier: &mut D,
    heap: Global,
    input: &mut R,
    output: &mut W,
) -> anyhow::Result<()>
    ensures { OnOk result (IfSome (R.remaining input.old) (λ xs. IfSome (W.contents output.old) (λ before. length xs < 2 ^ 64 - 1
        → (text : List ℕ) × (W.contents output.new ≡ Some (before ++ text)) × Served D.Says (lines_of xs) 1 0 0 replier.old text replier.new))) }
{
    let mut line = Vec::new(heap);
    let mut counts = Counts::default();
    for number in 1..u64::MAX {
        let Some(read) = next_line(input, &mut line)? else {
            break;
        };
        let reply = said(replier, heap, number, read, &line)?;
        counts.count(&reply);
        print(output, reply)?;
    }
    writeln!(output, "{counts}")?;
    output.flush()?;
    Ok(())
}

#[cfg(test)]
mod tests {
    use super::*;
    use crate::replier::Requests;

    #[test]
    fn replies_are_printed_in_order(rt: HostRuntime) -> anyhow::Result<()> {
        let heap = rt.alloc();
        let mut input: &[u8] = b"# constants\nconst p\r\nconst q\n\xff\nop p 02 02";
        let mut output = Vec::new(heap);
        serve(&mut Requests, heap, &mut input, &mut output)?;
        let printed: &[u8] = b"const = 00 01 02\nline 3 refused: no such request\n\
line 4 refused: no text from column 0 on\nop = 00 04 c3 1\n2 requests answered, 2 lines refused\n";
        assert_eq!(rt; output.as_slice(), printed);
        Ok(())
    }
}
