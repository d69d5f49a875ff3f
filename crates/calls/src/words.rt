//! The call of each verb, from the text behind the verb.
ghost use Rattle.std.specs.Prelude.{codes};
ghost use Rattle.tokens.specs.Reads.{Reads};
ghost use Rattle.tokens.specs.Words.{spaced};
ghost use Rattle.calls.specs.Lines.{written_call, NoCall};

use crate::call::Call;
use std::alloc::Global;
use tokens::{Fault, Piece, byte, count, keyed, setting, word};

/// `bank ID level=0 PLAN`, behind the verb.
pub(crate) fn bank(heap: Global, piece: Piece<'_>) -> Result<Call, Fault>
    ensures { Reads written_call NoCall (spaced (codes "bank") piece.entry.text.now) result }
{
    let (id, rest) = word(piece)?;
    let plan = keyed(rest, "level=0 ")?;
    let id = String::from_str(heap, id.text)?;
    let plan = String::from_str(heap, plan.text)?;
    Ok(Call::Bank { id, plan })
}

/// `take LANE BYTE`, behind the verb.
pub(crate) fn take(piece: Piece<'_>) -> Result<Call, Fault>
    ensures { Reads written_call NoCall (spaced (codes "take") piece.entry.text.now) result }
{
    let (lane, rest) = setting(piece, "", u64::MAX)?;
    let byte = byte(rest)?;
    Ok(Call::Take { lane, byte })
}

/// `read LANE PLACE`, behind the verb.
pub(crate) fn read(piece: Piece<'_>) -> Result<Call, Fault>
    ensures { Reads written_call NoCall (spaced (codes "read") piece.entry.text.now) result }
{
    let (lane, rest) = setting(piece, "", u64::MAX)?;
    let place = count(rest)?;
    Ok(Call::Read { lane, place })
}

/// `set LANE PLACE BYTE`, behind the verb.
pub(crate) fn set(piece: Piece<'_>) -> Result<Call, Fault>
    ensures { Reads written_call NoCall (spaced (codes "set") piece.entry.text.now) result }
{
    let (lane, rest) = setting(piece, "", u64::MAX)?;
    let (place, last) = setting(rest, "", u64::MAX)?;
    let byte = byte(last)?;
    Ok(Call::Set { lane, place, byte })
}

/// `regs LANE`, behind the verb.
#[tactic(auto, using(tokens::proofs::Decimals::no_number))]
pub(crate) fn regs(piece: Piece<'_>) -> Result<Call, Fault>
    ensures { Reads written_call NoCall (spaced (codes "regs") piece.entry.text.now) result }
{
    let lane = count(piece)?;
    Ok(Call::Regs { lane })
}
