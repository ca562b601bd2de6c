// Records of the table, word by word.
ghost use Rattle.std.specs.Prelude.{◌*◌, ◌+◌, ◌<◌, length, ◌≡◌};
ghost use Rattle.members.specs.Records.{Room, next_of, quote_of, word};
ghost use Rattle.text.specs.Table.{record_words};

// How many words a record has.
pub const RECORD_WORDS: usize = 4;

// Word 2 of a value that has no name.
pub const UNNAMED: u32 = 4294967295;

// Word `j` of record `r`.
pub fn word_at(table: &[u32], r: usize, j: usize) -> usize
    requires { record_words * r + j < length table.now }
    ensures { result ≡ word table.now r j }
{
    table[RECORD_WORDS * r + j] as usize
}

// The number of the next sibling of record `r`, or of what follows its container.
#[tactic(auto, unfolding(crate::specs::Records::next_of))]
pub fn next(table: &[u32], r: usize) -> usize
    requires { Room table.now r }
    ensures { result ≡ next_of table.now r }
{
    word_at(table, r, 3)
}

// The offset of the opening quote of the name of record `r`, if it has a name.
pub fn quote(table: &[u32], r: usize) -> Option<usize>
    requires { Room table.now r }
    ensures { result ≡ quote_of (word table.now r 2) }
{
    let q = word_at(table, r, 2);
    (q != UNNAMED as usize).then_some(q)
}
