//! The algebra of correcting one codeword, over any kind of field element: theorems, with nothing to compute.
#![tactic(auto)]

ghost use Rattle.std.specs.Prelude.{ℕ};
ghost use Rattle.code.specs.Code.{Code};
ghost use Rattle.generator.specs.Claims.{Fits};
ghost use Rattle.locator.specs.Claims.{Recurrences, Locators, Corrections, Erasures};

use field::Field;

/// Each turn of the search for the shortest recurrence of a sequence gives the shortest recurrence of one place more.
pub fn recurrences_stand<F: Field>()
    ensures { Recurrences F.ops }
{}

/// The shortest recurrence of power sums is the locator polynomial of their entries, and tells their values.
pub fn locators_stand<F: Field>()
    ensures { Locators F.ops }
{}

/// At most one codeword is near enough to a word, and the shortest recurrence of the syndromes tells which, or that there is none.
pub fn corrections_stand<F: Field>()
    ensures { (c : Code) → Fits F.ops c → Corrections F.ops c }
{}

/// The same with erasures, of which the code corrects twice as many.
pub fn erasures_stand<F: Field>()
    ensures { (c : Code) → Fits F.ops c → Erasures F.ops c }
{}
