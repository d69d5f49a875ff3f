//! What holds of every answer: theorems, with nothing to compute.
ghost use Rattle.reception.specs.Laws.{OneCodeword, OneAnswer, Restores, CheckAgrees};

/// At most one codeword is near enough to a word.
pub fn at_most_one_codeword()
    ensures { OneCodeword }
{}

/// At most one answer and one message are right.
pub fn at_most_one_answer()
    ensures { OneAnswer }
{}

/// Of codewords altered in at most 16 symbols of each lane, the count is that of the altered symbols, and the message the unaltered one.
pub fn damage_is_undone()
    ensures { Restores }
{}

/// A check accepts a block exactly when correction finds no wrong symbol.
pub fn check_and_receive_agree()
    ensures { CheckAgrees }
{}
