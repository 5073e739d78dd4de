// Which text is which number.
use uart_text::number::{NumberError, read_number};

#[test]
fn reads_numbers(rt: HostRuntime) {
    for text in "74880 74_880 74,880 7_4,880 0_07_4880".split(' ') {
        assert_eq!(rt; read_number(text.as_bytes(), u64::MAX), Ok(74_880));
    }
    assert_eq!(rt; read_number(b"1,234,567", 1_234_567), Ok(1_234_567));
    assert_eq!(rt; read_number(b"007", 7), Ok(7));
    assert_eq!(rt;
        read_number(b"18446744073709551615", u64::MAX),
        Ok(u64::MAX)
    );
}

#[test]
fn refuses_other_texts(rt: HostRuntime) {
    let texts =
        "|1,2,3|1234,567|1,234567|,123|123,|_1|1_|1__2|1_,234|1,_234|+5|-5| 5|5 |0x10|5%|1e3|_|,|é";
    for text in texts.split('|') {
        assert_eq!(rt;
            read_number(text.as_bytes(), u64::MAX),
            Err(NumberError::NotANumber)
        );
    }
    for text in "101 1,000 18446744073709551616 99_999_999_999_999_999_999_999_999".split(' ') {
        assert_eq!(rt;
            read_number(text.as_bytes(), 100),
            Err(NumberError::TooLarge)
        );
    }
    assert_eq!(rt;
        read_number(b"18446744073709551616", u64::MAX),
        Err(NumberError::TooLarge)
    );
}
