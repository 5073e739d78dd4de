// What of a line is read, and the words of it.
ghost use Rattle.std.specs.Prelude.{◌≡◌, true, length, IfOk, MatchOption};
ghost use Rattle.std.specs.Iterator.{at_most};
ghost use Rattle.uart_text.specs.Line.{Uncommented, Commented, WithoutEnd, Content};
ghost use Rattle.uart_text.specs.Words.{blank, AllOf, NextWord};
ghost use Rattle.uart_text.specs.Left.{left, texts, WordOrEnd, WordsOf};

use std::alloc::{AllocError, Global};

// The line without its end: `\n`, `\r\n`, or a lone `\r`.
fn without_end(line: &[u8]) -> &[u8]
    ensures { WithoutEnd line.now result.now }
{
    let line = line.strip_suffix(b"\n").unwrap_or(line);
    line.strip_suffix(b"\r").unwrap_or(line)
}

// What stands before the first `#`.
fn before_comment(line: &[u8]) -> Option<&[u8]>
    ensures { MatchOption result (Uncommented line.now) (λ text. Commented line.now text.now) }
{
    let end = line.iter().position(|byte| *byte == b'#')?;
    Some(&line[..end])
}

// The line up to its first `#`, or else without its end.
pub fn content(line: &[u8]) -> &[u8]
    ensures { Content line.now result.now }
{
    before_comment(line).unwrap_or_else(|| without_end(line))
}

// Whether a byte is a space or a tab.
fn is_blank(byte: u8) -> bool
    ensures { result ≡ blank byte }
{
    byte == b' ' || byte == b'\t'
}

// The first word of `text`, and what comes after it.
fn cut_word(text: &[u8]) -> Option<(&[u8], &[u8])>
    ensures { MatchOption result (AllOf true text.now) (λ p. NextWord text.now p.0.now p.1.now) }
{
    let start = text.iter().position(|byte| !is_blank(*byte))?;
    let text = &text[start..];
    let end = text
        .iter()
        .position(|byte| is_blank(*byte))
        .unwrap_or(text.len());
    Some(text.split_at(end))
}

// The words of a line that are left to read. It is `Copy`, so that a caller can read on from a place twice.
#[derive(Clone, Copy, Debug)]
pub struct Words<'a> {
    rest: &'a [u8],
}

impl<'a> Words<'a> {
    // All of `line` is left.
    pub fn new(line: &'a [u8]) -> Words<'a>
        ensures { left result ≡ line.now }
    {
        Words { rest: line }
    }
}

impl<'a> Iterator for Words<'a> {
    type Item = &'a [u8];

    ghost next_gives = { λ old word new. WordOrEnd (left old) word (left new) };

    ghost remaining = { λ words. at_most (length (left words)) };

    fn next(&mut self) -> Option<&'a [u8]> {
        match cut_word(self.rest) {
            Some((word, rest)) => {
                self.rest = rest;
                Some(word)
            }
            None => {
                self.rest = &[];
                None
            }
        }
    }
}

// The words that are left, in order. Apart from `split_words`, whose proof did not close with the two in one.
fn collect_words<'a>(heap: Global, words: Words<'a>) -> Result<Vec<&'a [u8]>, AllocError>
    ensures { IfOk result (λ v. WordsOf (left words.entry) (texts v.items)) }
{
    words.collect(heap)
}

// The words of `line`, in order.
pub fn split_words<'a>(heap: Global, line: &'a [u8]) -> Result<Vec<&'a [u8]>, AllocError>
    ensures { IfOk result (λ v. WordsOf line.now (texts v.items)) }
{
    collect_words(heap, Words::new(line))
}
