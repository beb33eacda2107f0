// The sizes of what is lent.
ghost use Rattle.std.specs.Prelude.{◌≡◌};
ghost use Rattle.centre.specs.Centre.{wrong_sizes};

use records::{book, layout};

pub fn is_wrong(book: usize, table: usize) -> bool
    ensures { result ≡ wrong_sizes book table }
{
    (book != book::SIZE) | (table != layout::TABLE_SIZE)
}
