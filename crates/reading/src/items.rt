// The items of a file's head.
ghost use Rattle.std.specs.Prelude.{◌≡◌, ℕ, ◌+◌, ◌≤◌, length, IfOk};
ghost use Rattle.std.specs.Option.{option_map};
ghost use Rattle.faults.specs.Faults.{answered, gives};
ghost use Rattle.layout.specs.Recording.{Recording};
ghost use Rattle.layout.specs.Claims.{Gives};
ghost use Rattle.reading.specs.Agreement.{head_of};
ghost use Rattle.reading.specs.Items as items;
ghost use Rattle.reading.specs.Items.{said, said_part, handed, head_answer, items_of, StandsAt, name_byte, extra_byte};

use crate::item::{Head, Item};
use crate::part::Part;
use crate::source::Source;
use faults::kind::Fault;

// The item of a number that may be absent. A match, since the check takes no `map` here: the item's lifetime comes from no argument.
fn number_item<'a>(number: Option<u32>) -> Option<Item<'a>>
    ensures { option_map said result ≡ option_map items.number number }
{
    match number {
        None => None,
        Some(n) => Some(Item::Number(n)),
    }
}

// The item of a part.
fn part_item(file: &[u8], part: Part) -> Item<'_>
    requires { part.at.bytes + part.len ≤ length file.now }
    ensures { said result ≡ said_part file.now part }
{
    let from = part.at.bytes();
    Item::Bytes(&file[from..from + part.len])
}

// Reads the head of a file alone. The name and the extra bytes are parts of the file;
// where the whole file is accepted, the items are those of its recording.
pub fn head(file: &[u8]) -> Result<Head<'_>, Fault>
    ensures items { answered handed result ≡ head_answer file.now }
    ensures name { IfOk result (λ h. StandsAt file.now (name_byte h) h.name) }
    ensures extra { IfOk result (λ h. StandsAt file.now (extra_byte h) h.extra) }
    ensures accepted { (x : Recording) → Gives file.now x → answered handed result ≡ gives (items_of (head_of x)) }
{
    let source = Source::new(file)?;
    let front = source.take_head()?.value;
    Ok(Head {
        stamp: Item::Number(front.stamp),
        flags: Item::Number(front.flags),
        size: number_item(front.size),
        name: front.name.map(|part| part_item(file, part)),
        extra: front.extra.map(|part| part_item(file, part)),
    })
}
