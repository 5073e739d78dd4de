// The rate rules at their limits. Each row is reckoned from the rules, not by this code: clock, baud rate, and then prescaler, divider and rate, or the refusal.
use uart_rate::achieve::achieve;
use uart_rate::clocks::Clocks;
use uart_rate::config::{BaudrateTolerance, ClockSource, Config};
use uart_rate::esp32::Esp32;
use uart_rate::esp32c3::Esp32c3;
use uart_rate::esp32c6::Esp32c6;
use uart_rate::generator::BaudGenerator;

// Prescaler, divider and rate, or the refusal's number.
fn outcome<G: BaudGenerator>(
    source: ClockSource,
    clk: u32,
    baud: u32,
    tolerance: BaudrateTolerance,
) -> Result<(u16, u64, u32), u8> {
    let mut config = Config::from_source(source);
    config.baudrate = baud;
    config.baudrate_tolerance = tolerance;
    let clocks = Clocks {
        apb_clock: clk,
        rc_fast_clock: clk,
        xtal_clock: clk,
        ref_tick: clk,
    };
    match achieve::<G>(&config, &clocks) {
        Ok(achieved) => Ok((
            achieved.divider.prescaler,
            achieved.divider.sixteenths(),
            achieved.rate,
        )),
        Err(refusal) => Err(refusal.number()),
    }
}

fn closest<G: BaudGenerator>(clk: u32, baud: u32) -> Result<(u16, u64, u32), u8> {
    outcome::<G>(G::DEFAULT_SOURCE, clk, baud, BaudrateTolerance::Closest)
}

fn percent<G: BaudGenerator>(n: u8) -> Result<(u16, u64, u32), u8> {
    outcome::<G>(
        G::DEFAULT_SOURCE,
        1_000_000,
        5_000_000,
        BaudrateTolerance::ErrorPercent(n),
    )
}

#[test]
fn baud_rates_at_their_limits(rt: HostRuntime) {
    assert_eq!(rt; closest::<Esp32c3>(80_000_000, 0), Err(2));
    assert_eq!(rt; closest::<Esp32c3>(1, 1), Ok((1, 16, 1)));
    assert_eq!(rt; closest::<Esp32>(80_000_000, 1), Err(4));
    assert_eq!(rt; closest::<Esp32c3>(80_000_000, 77), Ok((254, 65_446, 77)));
    assert_eq!(rt; closest::<Esp32c3>(80_000_000, 76), Err(4));
    assert_eq!(rt; closest::<Esp32>(80_000_000, 77), Ok((1, 16_623_376, 77)));
    assert_eq!(rt; closest::<Esp32>(80_000_000, 76), Err(4));
    assert_eq!(rt;
        closest::<Esp32c6>(80_000_000, 5_000_000),
        Ok((1, 256, 5_000_000))
    );
    assert_eq!(rt; closest::<Esp32c6>(80_000_000, 5_000_001), Err(2));
}

#[test]
fn clocks_at_their_limits(rt: HostRuntime) {
    assert_eq!(rt; closest::<Esp32>(0, 5_000_000), Err(3));
    assert_eq!(rt; closest::<Esp32>(1, 5_000_000), Err(4));
    assert_eq!(rt; closest::<Esp32>(312_499, 5_000_000), Err(4));
    assert_eq!(rt; closest::<Esp32>(312_500, 5_000_000), Ok((1, 1, 5_000_000)));
    assert_eq!(rt;
        closest::<Esp32c3>(39_302_400, 9_600),
        Ok((1, 65_504, 9_600))
    );
    assert_eq!(rt;
        closest::<Esp32c3>(39_302_401, 9_600),
        Ok((2, 32_752, 9_600))
    );
    assert_eq!(rt;
        closest::<Esp32>(268_435_455, 5_000_000),
        Ok((1, 858, 5_005_789))
    );
    assert_eq!(rt; closest::<Esp32>(268_435_456, 5_000_000), Err(3));
}

// With 256 baud the prescaler grows with each 1,048,064 hertz.
#[test]
fn the_largest_prescaler(rt: HostRuntime) {
    assert_eq!(rt;
        closest::<Esp32c3>(267_256_320, 256),
        Ok((255, 65_504, 256))
    );
    assert_eq!(rt;
        closest::<Esp32c3>(267_256_321, 256),
        Ok((256, 65_248, 256))
    );
    assert_eq!(rt;
        closest::<Esp32c3>(268_304_384, 256),
        Ok((256, 65_504, 256))
    );
    assert_eq!(rt; closest::<Esp32c3>(268_304_385, 256), Err(4));
}

#[test]
fn percents_at_their_limits(rt: HostRuntime) {
    assert_eq!(rt; percent::<Esp32>(0), Err(1));
    assert_eq!(rt; percent::<Esp32>(1), Err(6));
    assert_eq!(rt; percent::<Esp32>(6), Err(6));
    assert_eq!(rt; percent::<Esp32>(7), Ok((1, 3, 5_333_333)));
    assert_eq!(rt; percent::<Esp32>(100), Ok((1, 3, 5_333_333)));
    assert_eq!(rt; percent::<Esp32>(101), Err(1));
    assert_eq!(rt;
        outcome::<Esp32>(
            ClockSource::RefTick,
            315_625,
            5_000_000,
            BaudrateTolerance::Exact,
        ),
        Ok((1, 1, 5_050_000))
    );
    assert_eq!(rt;
        outcome::<Esp32>(
            ClockSource::RefTick,
            315_626,
            5_000_000,
            BaudrateTolerance::Exact,
        ),
        Err(6)
    );
}

// Where several tests fail, the first is told; a source that the chip lacks is refused whatever its clock.
#[test]
fn the_first_refusal_is_given(rt: HostRuntime) {
    assert_eq!(rt;
        outcome::<Esp32>(ClockSource::Xtal, 0, 0, BaudrateTolerance::ErrorPercent(0)),
        Err(1)
    );
    assert_eq!(rt;
        outcome::<Esp32>(
            ClockSource::Xtal,
            0,
            0,
            BaudrateTolerance::ErrorPercent(100),
        ),
        Err(2)
    );
    assert_eq!(rt;
        outcome::<Esp32>(
            ClockSource::Xtal,
            80_000_000,
            9_600,
            BaudrateTolerance::Closest,
        ),
        Err(3)
    );
    assert_eq!(rt;
        outcome::<Esp32>(
            ClockSource::RcFast,
            80_000_000,
            9_600,
            BaudrateTolerance::Closest,
        ),
        Err(3)
    );
    assert_eq!(rt;
        outcome::<Esp32c3>(
            ClockSource::RefTick,
            80_000_000,
            9_600,
            BaudrateTolerance::Closest,
        ),
        Err(3)
    );
    assert_eq!(rt;
        outcome::<Esp32c6>(
            ClockSource::RefTick,
            80_000_000,
            9_600,
            BaudrateTolerance::Closest,
        ),
        Err(3)
    );
    assert_eq!(rt;
        outcome::<Esp32c6>(
            ClockSource::Apb,
            80_000_000,
            9_600,
            BaudrateTolerance::Closest,
        ),
        Ok((3, 44_444, 9_600))
    );
}
