// The pool line, which opens a script: its numbers, and the setup that they make.
ghost use Rattle.std.specs.Prelude.{◌≡◌, IfSome, IfNone, IsSome};
ghost use Rattle.clover_words.specs.Range.{first_fault, HasNumbers};
ghost use Rattle.clover_script.specs.Line.{AreNumbers, pool_line, numbers_of, IsPoolLine, HasBadNumbers};

use crate::line::PoolLine;
use crate::number::field;
use clover_words::{Pool, Setup};

/// The numbers of a pool line. None exactly where the line is none.
pub fn pool_line_of(line: &[u8]) -> Option<PoolLine>
    ensures found { IfSome result (λ n. AreNumbers n × (line.now ≡ pool_line n)) }
    ensures none { IfNone result (IsPoolLine line.now → ⊥) }
{
    let (nodes, rest) = field(line, b"pool nodes=")?;
    let (buffers, rest) = field(rest, b" buffers=")?;
    let (slots, rest) = field(rest, b" slots=")?;
    let (words, rest) = field(rest, b" words=")?;
    let (wear, rest) = field(rest, b" wear=")?;
    let (clients, rest) = field(rest, b" clients=")?;
    let (batch, rest) = field(rest, b" batch=")?;
    if !rest.is_empty() {
        return None;
    }
    Some(PoolLine {
        nodes,
        buffers,
        slots,
        words,
        wear,
        clients,
        batch,
    })
}

/// The setup of a pool line's numbers. None exactly where one is out of its range.
pub fn setup_from(numbers: PoolLine) -> Option<Setup>
    ensures found { IfSome result (λ s. numbers_of s ≡ numbers) }
    ensures none { IfNone result (HasBadNumbers numbers) }
{
    let pool = pool_from(numbers)?;
    Setup::check(pool, numbers.clients, numbers.batch).ok()
}

fn pool_from(numbers: PoolLine) -> Option<Pool>
    ensures found { IfSome result (λ p. HasNumbers p numbers.nodes numbers.buffers numbers.slots numbers.words numbers.wear) }
    ensures none { IfNone result (IsSome (first_fault numbers.nodes numbers.buffers numbers.slots numbers.words numbers.wear)) }
{
    Pool::check(
        numbers.nodes,
        numbers.buffers,
        numbers.slots,
        numbers.words,
        numbers.wear,
    )
    .ok()
}
