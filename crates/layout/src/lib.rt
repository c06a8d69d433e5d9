// The slim file as one description of fields, and what holds of it: see specs/.
#![tactic(auto)]

ghost use Rattle.layout.specs.Claims.{FormatStands};
ghost use Rattle.layout.specs.Example.{ExampleStands};
ghost use Rattle.layout.specs.Plain.{ValidityIsPlain};

// Reading gives a recording exactly for the bytes that differ from its file in pad bits alone; bytes cut off or put behind are noticed;
// two recordings never have the same file.
pub fn format_stands()
    ensures { FormatStands }
{}

// A recording has a file exactly when it keeps the limits and each word has a form.
pub fn validity_is_plain()
    ensures { ValidityIsPlain }
{}

// A small recording and its file of 25 bytes.
pub fn example_stands()
    ensures { ExampleStands }
{}
