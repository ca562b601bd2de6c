// Where the value of a record stands in the text.
ghost use Rattle.std.specs.Prelude.{◌%◌, ◌≡◌};
ghost use Rattle.members.specs.Links.{low_part};
ghost use Rattle.members.specs.Records.{Room, word};

use members::link::LOW_PART;
use members::record::word_at;

// The offset of the first byte of the value of record `r`.
pub fn start(table: &[u32], r: usize) -> usize
    requires { Room table.now r }
    ensures { result ≡ word table.now r 0 % low_part }
{
    word_at(table, r, 0) % LOW_PART
}

// The offset behind its last byte.
pub fn behind(table: &[u32], r: usize) -> usize
    requires { Room table.now r }
    ensures { result ≡ word table.now r 1 % low_part }
{
    word_at(table, r, 1) % LOW_PART
}
