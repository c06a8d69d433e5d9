// All rows of a table.
ghost use Rattle.std.specs.Prelude.{◌≡◌, map};
ghost use Rattle.channel.specs.Records.{rested};

use channel::record::Channel;

// Each row is put at its starting memory.
pub(crate) fn rest(table: &mut [Channel])
    ensures { table.new ≡ map rested table.old }
{
    for row in table.iter_mut() {
        *row = row.at_rest();
    }
}
