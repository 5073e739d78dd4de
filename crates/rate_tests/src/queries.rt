// What is told of a query that cannot be read.
use rate_query::ask::read_line;
use std::test::Fail;

// What is told of a line, or nothing where it is read.
fn told(rt: &HostRuntime, line: &str) -> Result<String, Fail> {
    match read_line(rt.alloc(), line.as_bytes())? {
        Ok(_) => Ok(String::new(rt.alloc())),
        Err(mistake) => Ok(mistake.to_string(rt.alloc())?),
    }
}

#[test]
fn reads_lines(rt: HostRuntime) -> Result<(), Fail> {
    for line in "|  # only a comment|esp32 1|esp32c6 9,600 40_000_000 0%#x|\tesp32c3 1 2 exact \r\n|esp32 0 0 closest".split(
        '|',
    ) {
        assert_eq!(rt; told(&rt, line)?.as_str(), "");
    }
    Ok(())
}

#[test]
fn tells_the_first_mistake(rt: HostRuntime) -> Result<(), Fail> {
    assert_eq!(rt; told(&rt, "esp32")?.as_str(), "the baud rate is missing");
    assert_eq!(rt;
        told(&rt, "esp33 1 2 exact 5")?.as_str(),
        "there are more than four words"
    );
    assert_eq!(rt;
        told(&rt, "esp33 x y z")?.as_str(),
        "the chip is not esp32, esp32c3 or esp32c6"
    );
    assert_eq!(rt;
        told(&rt, "ESP32 9600")?.as_str(),
        "the chip is not esp32, esp32c3 or esp32c6"
    );
    assert_eq!(rt;
        told(&rt, "esp32 96oo y z")?.as_str(),
        "the baud rate is not a number"
    );
    assert_eq!(rt;
        told(&rt, "esp32 4294967296")?.as_str(),
        "the baud rate is above 4294967295"
    );
    assert_eq!(rt;
        told(&rt, "esp32 9600 80MHz z")?.as_str(),
        "the clock is not a number"
    );
    assert_eq!(rt;
        told(&rt, "esp32 9600 4,294,967,296")?.as_str(),
        "the clock is above 4294967295"
    );
    assert_eq!(rt;
        told(&rt, "esp32 9600 1 %")?.as_str(),
        "the tolerance is not closest, exact or a percent such as 3%"
    );
    assert_eq!(rt;
        told(&rt, "esp32 9600 1 3")?.as_str(),
        "the tolerance is not closest, exact or a percent such as 3%"
    );
    assert_eq!(rt;
        told(&rt, "esp32 9600 1 256%")?.as_str(),
        "the tolerance is above 255%"
    );
    Ok(())
}
