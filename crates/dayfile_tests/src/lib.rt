// Whole day files and their sheets, at the edges of what is read.
#![tactic(auto)]

#[cfg(test)]
mod tests {
    use dayfile::{Accumulated, Day, Money, run};
    use std::alloc::AllocGlobal;
    use std::process::Abort;
    use std::test::*;

    fn sheet(rt: &impl AllocGlobal, bytes: &[u8]) -> Result<String, Fail> {
        let mut day = Day::new(rt.alloc());
        let end = day.run(bytes);
        Ok(day.sheet(rt.alloc(), end)?)
    }

    fn expect_file(
        rt: &(impl Abort + AllocGlobal),
        bytes: &[u8],
        expected: &str,
    ) -> Result<(), Fail> {
        let text = sheet(rt, bytes)?;
        assert_eq!(rt; text.as_str(), expected);
        Ok(())
    }

    fn expect(rt: &(impl Abort + AllocGlobal), words: &[u32], expected: &str) -> Result<(), Fail> {
        let mut bytes = Vec::new(rt.alloc());
        for word in words {
            bytes.extend_from_slice(&word.to_be_bytes())?;
        }
        expect_file(rt, &bytes, expected)
    }

    // A file of zeros, which are words of kind 0.
    fn expect_bytes(
        rt: &(impl Abort + AllocGlobal),
        length: usize,
        expected: &str,
    ) -> Result<(), Fail> {
        let bytes = vec![in rt.alloc(); 0u8; length]?;
        expect_file(rt, &bytes, expected)
    }

    // The length is told before all: a file of a right length goes on to its first word.
    #[test]
    fn lengths(rt: HostRuntime) -> Result<(), Fail> {
        expect_bytes(&rt, 0, "")?;
        expect_bytes(&rt, 1, "R 0 file 12 0\n")?;
        expect_bytes(&rt, 2, "R 0 file 12 0\n")?;
        expect_bytes(&rt, 3, "R 0 file 12 0\n")?;
        expect_bytes(&rt, 4, "R 0 file 11 0\n")?;
        expect_bytes(&rt, 65_536, "R 0 file 11 0\n")?;
        expect_bytes(&rt, 65_537, "R 0 file 12 0\n")?;
        expect_bytes(&rt, 65_540, "R 0 file 12 0\n")
    }

    // Kinds of no call, a second word alone, and unfinished calls, ahead of the call's figures.
    #[test]
    fn wrong_words(rt: HostRuntime) -> Result<(), Fail> {
        expect(&rt, &[0x0000_0001], "R 0 file 11 0\n")?;
        expect(&rt, &[0xB000_0001, 0xC000_0001], "R 1 file 11 0\n")?;
        expect(&rt, &[0xF000_0001], "R 0 file 11 0\n")?;
        expect(&rt, &[0x2000_0001], "R 0 file 11 0\n")?;
        expect(&rt, &[0x5000_1001], "R 0 file 11 0\n")?;
        expect(&rt, &[0xB000_0001, 0x8000_4001], "R 1 file 11 0\n")?;
        expect(&rt, &[0x1000_0002], "R 0 file 11 0\n")?;
        expect(&rt, &[0x1000_0002, 0x1000_0003], "R 0 file 11 0\n")?;
        expect(&rt, &[0x7000_0000, 0x5000_4001], "R 0 file 11 0\n")?;
        expect(&rt, &[0x4000_4002, 0x5800_1001], "R 1 file 11 0\n")?;
        expect(&rt, &[0x4000_4002, 0x57FF_F001], "R 0 trade 6 0\n")
    }

    // Both sides of the limits of a listing and an opening.
    #[test]
    fn listing_limits(rt: HostRuntime) -> Result<(), Fail> {
        expect(&rt, &[0x1000_0002, 0x2000_0001], "R 0 list 1 0\n")?;
        expect(&rt, &[0x1000_0003, 0x2000_0001, 0x3000_0001], "")?;
        expect(&rt, &[0x1000_0400, 0x2EE6_B280, 0x35F5_E100], "")?;
        expect(&rt, &[0x1000_0401, 0x2EE6_B280], "R 0 list 1 0\n")?;
        expect(&rt, &[0x1000_0003, 0x2EE6_B281], "R 0 list 2 0\n")?;
        expect(
            &rt,
            &[0x1000_0003, 0x2000_0001, 0x3000_0000],
            "R 2 open 3 0\n",
        )?;
        expect(
            &rt,
            &[0x1000_0003, 0x2000_0001, 0x35F5_E101],
            "R 2 open 3 0\n",
        )
    }

    // Figures within their limits go on to the phase, which admits none of these calls before a listing.
    #[test]
    fn trade_and_rate_limits(rt: HostRuntime) -> Result<(), Fail> {
        expect(&rt, &[0x4000_4002, 0x5000_0001], "R 0 trade 6 0\n")?;
        expect(&rt, &[0x4000_4002, 0x5000_1001], "R 0 trade 31 0\n")?;
        expect(&rt, &[0x4000_4002, 0x54E2_0FA0], "R 0 trade 31 0\n")?;
        expect(&rt, &[0x4000_4002, 0x54E2_1FA0], "R 0 trade 6 0\n")?;
        expect(&rt, &[0x4000_4002, 0x5000_1000], "R 0 trade 7 0\n")?;
        expect(&rt, &[0x4000_4002, 0x5000_1FA1], "R 0 trade 7 0\n")?;
        expect(&rt, &[0x9000_07D0], "R 0 accrue 31 0\n")?;
        expect(&rt, &[0x9000_07D1], "R 0 accrue 10 0\n")
    }

    #[test]
    fn close_and_settle_limits(rt: HostRuntime) -> Result<(), Fail> {
        expect(&rt, &[0x7000_0001, 0x8000_4001], "R 0 close 31 0\n")?;
        expect(&rt, &[0x7098_967F, 0x83E8_0FA0], "R 0 close 31 0\n")?;
        expect(&rt, &[0x7098_9680, 0x83E8_0FA0], "R 0 close 9 0\n")?;
        expect(&rt, &[0x7000_0001, 0x8000_0001], "R 0 close 7 0\n")?;
        expect(&rt, &[0x7000_0001, 0x83E8_0FA1], "R 0 close 7 0\n")?;
        expect(&rt, &[0x7000_0001, 0x8000_8001], "R 0 close 8 0\n")?;
        expect(&rt, &[0xA098_967F], "R 0 settle 31 0\n")?;
        expect(&rt, &[0xA098_9680], "R 0 settle 9 0\n")?;
        expect(&rt, &[0xA000_0000], "R 0 settle 13 0\n")
    }

    // An account is checked by its number, then by the phase.
    #[test]
    fn accounts(rt: HostRuntime) -> Result<(), Fail> {
        expect(&rt, &[0xB000_0001, 0xB000_3FFF], "")?;
        expect(&rt, &[0xB000_0001, 0xB000_0000], "R 1 account 4 0\n")?;
        expect(&rt, &[0xB000_4000], "R 0 account 4 0\n")?;
        expect(
            &rt,
            &[0x1000_0003, 0x203D_0900, 0xB000_0001],
            "R 2 account 31 0\n",
        )?;
        expect(
            &rt,
            &[0x1000_0003, 0x203D_0900, 0xB000_4000],
            "R 2 account 4 0\n",
        )?;
        // A refused listing is none.
        expect(&rt, &[0x1000_0003, 0x2000_0000], "R 0 list 2 0\n")
    }

    // Accounts from 1 on, then one more.
    fn expect_after(
        rt: &(impl Abort + AllocGlobal),
        count: u32,
        account: u32,
        expected: &str,
    ) -> Result<(), Fail> {
        let mut bytes = Vec::new(rt.alloc());
        for number in 0..count {
            bytes.extend_from_slice(&(0xB000_0001u32.wrapping_add(number)).to_be_bytes())?;
        }
        bytes.extend_from_slice(&(0xB000_0000u32.wrapping_add(account)).to_be_bytes())?;
        expect_file(rt, &bytes, expected)
    }

    // 64 different accounts have a place; a repeated one counts once.
    #[test]
    fn account_places(rt: HostRuntime) -> Result<(), Fail> {
        expect_after(&rt, 63, 9_000, "")?;
        expect_after(&rt, 64, 9_000, "R 64 account 37 9000\n")?;
        expect_after(&rt, 64, 64, "")?;
        expect_after(&rt, 64, 1, "")?;
        expect_after(&rt, 64, 16_384, "R 64 account 4 0\n")
    }

    // A day at the strike of 20 volatility points, and the next with a value that does not follow.
    #[test]
    fn lines_before_a_refusal(rt: HostRuntime) -> Result<(), Fail> {
        let words = [
            0x1000_0003,
            0x203D_0900,
            0x35F5_E100,
            0x7000_2710,
            0x8064_0190,
            0x9000_00B4,
            0x35F5_E100,
            0x7000_3416,
            0x8064_0190,
        ];
        expect(&rt, &words, "C 0 1000.0000 0.00000000\nR 7 close 41 0\n")?;
        expect(&rt, &[0x35F5_E100], "R 0 open 31 0\n")
    }

    // A run over parts that are lent apart goes on where the one before it ended.
    #[test]
    fn lent_parts(rt: HostRuntime) -> Result<(), Fail> {
        let mut day = Day::new(rt.alloc());
        let account = [0xB0, 0, 0, 5];
        let named = run(
            &account,
            &mut day.contract,
            &mut day.accounts,
            &mut day.lines,
        );
        assert!(rt; named.is_ok());
        let words = [
            0x10, 0, 0, 3, 0x20, 0x3D, 9, 0, 0x35, 0xF5, 0xE1, 0, 0x70, 0, 0x27, 0x10, 0x80, 0x64,
            1, 0x90, 0xB0, 0, 0, 6,
        ];
        let end = run(&words, &mut day.contract, &mut day.accounts, &mut day.lines);
        let text = day.sheet(rt.alloc(), end)?;
        assert_eq!(rt;
            text.as_str(),
            "C 0 1000.0000 0.00000000\nR 5 account 31 0\n"
        );
        assert_eq!(rt; day.accounts.numbers(), [5].as_slice());
        Ok(())
    }

    fn expect_texts(
        rt: &(impl Abort + AllocGlobal),
        value: i64,
        money: &str,
        accumulated: &str,
    ) -> Result<(), Fail> {
        let four = Money { value }.to_string(rt.alloc())?;
        let eight = Accumulated { value }.to_string(rt.alloc())?;
        assert_eq!(rt; four.as_str(), money);
        assert_eq!(rt; eight.as_str(), accumulated);
        Ok(())
    }

    // Both signs, with the zeros of every width of part.
    #[test]
    fn texts(rt: HostRuntime) -> Result<(), Fail> {
        expect_texts(&rt, 0, "0.0000", "0.00000000")?;
        expect_texts(&rt, -1, "-0.0001", "-0.00000001")?;
        expect_texts(&rt, 10, "0.0010", "0.00000010")?;
        expect_texts(&rt, -999, "-0.0999", "-0.00000999")?;
        expect_texts(&rt, 1_000, "0.1000", "0.00001000")?;
        expect_texts(&rt, -10_000, "-1.0000", "-0.00010000")?;
        expect_texts(&rt, 10_430_594, "1043.0594", "0.10430594")?;
        expect_texts(&rt, -100_000_000, "-10000.0000", "-1.00000000")?;
        expect_texts(
            &rt,
            i64::MAX,
            "922337203685477.5807",
            "92233720368.54775807",
        )?;
        expect_texts(
            &rt,
            i64::MIN,
            "-922337203685477.5808",
            "-92233720368.54775808",
        )
    }
}
