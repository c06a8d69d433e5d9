// What holds of every coder.
ghost use Rattle.forms.specs.Bench.{AllHold, cases};
ghost use Rattle.forms.specs.Laws.{CoderLaws};

use crate::coder::Coder;

// The rules, and what follows from them: the bits that remain begin with exactly one form or are a proper beginning of one,
// and what is written and read is as the forms say.
pub fn coder_laws<C: Coder>()
    ensures { (c : C) → CoderLaws (C.Coder.wide c) (C.Coder.coding c) }
{}

// The worked cases of reduced binary, turn and delta.
pub fn worked_cases()
    ensures { AllHold cases }
{}
