// A word with a number behind it.
ghost use Rattle.std.specs.Prelude.{◌++◌};
ghost use Rattle.output.specs.Digits.{padded};
ghost use Rattle.output.specs.Text.{Puts};

use crate::{Guard, Mark, NoRoom, put, put_number};

// Puts the word and, right behind it, n in decimal.
pub fn put_labelled(bytes: &mut [u8], mark: &mut Mark, word: &[u8], n: u64) -> Result<(), NoRoom>
    ensures { Puts bytes.old mark.old.used (word.now ++ padded 1 n) bytes.new mark.new.used result }
{
    let guard = Guard::hold(mark);
    put(bytes, guard.mark, word)?;
    put_number(bytes, guard.mark, n, 1)?;
    guard.accept();
    Ok(())
}
