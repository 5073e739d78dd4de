// Reads a query from a line of text.
ghost use Rattle.std.specs.Prelude.{ℕ, ◌≢◌, List, [], IfOk};
ghost use Rattle.rate_query.specs.Asking.{Asks, LineRead};
ghost use Rattle.uart_text.specs.Left.{texts};
ghost use Rattle.uart_text.specs.Line.{Content};

use super::error::QueryError;
use super::query::Query;
use super::read::read_query;
use std::alloc::{AllocError, Global};
use uart_text::words::{content, split_words};

// What a line holds: no word, a query, or a mistake.
pub type Asked = Result<Option<Query>, QueryError>;

// What words ask, of which there are some. Apart from `ask`, where `map` and `?` each left a goal open.
fn ask_some(words: &[&[u8]]) -> Asked
    requires { texts words.now ≢ [] }
    ensures { Asks (texts words.now) result }
{
    read_query(words).map(Some)
}

// What words ask; no words ask nothing.
#[tactic(auto, using(crate::proofs::Places::no_more))]
pub fn ask(words: &[&[u8]]) -> Asked
    ensures { Asks (texts words.now) result }
{
    if words.is_empty() {
        Ok(None)
    } else {
        ask_some(words)
    }
}

// What the words of a text ask, and so every line that has this text. Apart from `read_line`, whose proof did not close with the two in one.
fn read_text(heap: Global, text: &[u8]) -> Result<Asked, AllocError>
    ensures { IfOk result (λ asked. (line : List ℕ) → Content line text.now → LineRead line asked) }
{
    let words = split_words(heap, text)?;
    Ok(ask(&words))
}

// What the words of a line ask, up to a `#` or the line's end. Without the `?` and the `Ok` the goal stays open.
pub fn read_line(heap: Global, line: &[u8]) -> Result<Asked, AllocError>
    ensures { IfOk result (LineRead line.now) }
{
    Ok(read_text(heap, content(line))?)
}
