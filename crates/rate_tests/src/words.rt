// The words of a line.
use std::test::Fail;
use uart_text::words::{Words, content, split_words};

#[test]
fn leaves_comments_and_line_ends_out(rt: HostRuntime) {
    for line in "a b|a b\n|a b\r\n|a b\r|a b#|a b# c # d\r\n|a b##".split('|') {
        assert_eq!(rt; content(line.as_bytes()), b"a b".as_slice());
    }
    assert_eq!(rt; content(b"a\r\n#"), b"a\r\n".as_slice());
    assert_eq!(rt; content(b"a\r\r\n"), b"a\r".as_slice());
    assert_eq!(rt; content(b"a\n\r"), b"a\n".as_slice());
}

#[test]
fn cuts_at_blanks_and_tabs(rt: HostRuntime) -> Result<(), Fail> {
    let line = b" baud\t 9600 x\t";
    let mut left = Words::new(line);
    for word in "baud 9600 x".split(' ') {
        assert_eq!(rt; left.next().ok_or("too few words")?, word.as_bytes());
    }
    assert!(rt; left.next().is_none());
    assert_eq!(rt; split_words(rt.alloc(), line)?.len(), 3);
    Ok(())
}
