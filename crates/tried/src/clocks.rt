use dxc_host::moment_of;
use std::test::Fail;

// Seconds since 1970, and what is shown of them: year of the century, month, day, hour, minute and second. What lies outside of the
// century is shown as its first moment.
const DATES: [(i64, [u8; 6]); 6] = [
    (951_782_400, [0, 2, 29, 0, 0, 0]),
    (4_102_444_799, [99, 12, 31, 23, 59, 59]),
    (4_102_444_800, [0, 1, 1, 0, 0, 0]),
    (-1, [0, 1, 1, 0, 0, 0]),
    (946_684_799, [0, 1, 1, 0, 0, 0]),
    (i64::MIN, [0, 1, 1, 0, 0, 0]),
];

#[test]
fn dates_of_seconds(rt: HostRuntime) -> Result<(), Fail> {
    for (second, shown) in DATES {
        let found = moment_of(second);
        let parts = [
            found.year,
            found.month,
            found.day,
            found.hour,
            found.minute,
            found.second,
        ];
        assert!(rt; parts == shown, "{second}");
    }
    Ok(())
}
