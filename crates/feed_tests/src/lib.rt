//! Feeds written, read and listed, on examples.

#![tactic(auto)]

#[cfg(test)]
mod tests {
    use command::Command;
    use fault::Fault;
    use listing::text_of;
    use order::Order;
    use refusal::Refusal;
    use script::{Mistake, parse};
    use std::process::Abort;
    use std::test::Fail;

    // Line to command to bytes to command to line.
    fn comes_back(rt: &impl Abort, line: &[u8], size: usize) -> Result<(), Fail> {
        let command = parse(line)?.ok_or("no command")?;
        let mut bytes = [0xFF; 40];
        assert_eq!(rt; wire::write(&command, &mut bytes)?, size);
        assert_eq!(rt; wire::read(&bytes, 0)?, (command, size));
        let text = text_of(&command);
        assert!(rt; text.as_slice() == line);
        Ok(())
    }

    #[test]
    fn every_command_comes_back(rt: HostRuntime) -> Result<(), Fail> {
        comes_back(&rt, b"settings hull k 1 f 2 F 4 by number 3", 10)?;
        comes_back(&rt, b"settings joinery k 12 f 64 F 64 by days 1000000", 10)?;
        comes_back(&rt, b"radius 4", 5)?;
        comes_back(&rt, b"open", 1)?;
        comes_back(&rt, b"hull 1 0 -1 500000 -500000 10 -9 7 3", 37)?;
        comes_back(&rt, b"joinery 2 0x0F", 13)?;
        comes_back(&rt, b"day 3", 5)?;
        comes_back(&rt, b"pick", 1)
    }

    #[test]
    fn all_that_the_widths_carry_comes_back(rt: HostRuntime) -> Result<(), Fail> {
        comes_back(
            &rt,
            b"settings kind 7 k 13 f 0 F 255 term 9 n 4294967295",
            10,
        )?;
        comes_back(&rt, b"settings kind 255 k 255 f 255 F 255 term 255 n 0", 10)?;
        comes_back(&rt, b"radius 1048576", 5)?;
        comes_back(&rt, b"day 4294967295", 5)?;
        comes_back(
            &rt,
            b"hull 4294967295 2147483647 -2147483648 500001 0 1 -1 65536 -65536",
            37,
        )?;
        comes_back(&rt, b"joinery 0 0x00", 13)?;
        comes_back(&rt, b"joinery 0 0x0100", 13)?;
        comes_back(&rt, b"joinery 0 0x00010000", 13)?;
        comes_back(&rt, b"joinery 0 0xFFFFFFFFFFFFFFFF", 13)
    }

    #[test]
    fn text_is_read_as_people_write_it(rt: HostRuntime) -> Result<(), Fail> {
        assert_eq!(rt; parse(b"")?, None);
        assert_eq!(rt; parse(b" \t\r")?, None);
        assert_eq!(rt; parse(b"# radius 4")?, None);
        assert_eq!(rt; parse(b"  radius\t004 # four")?, Some(Command::Radius(4)));
        assert_eq!(rt;
            parse(b"joinery 2 0xf")?,
            Some(Command::Joinery { day: 2, word: 15 })
        );
        assert_eq!(rt;
            parse(b"settings kind 0 k 1 f 2 F 4 term 1 n 3")?,
            parse(b"settings hull k 1 f 2 F 4 by days 3")?
        );
        Ok(())
    }

    #[test]
    fn lines_that_are_no_command_are_told_apart(rt: HostRuntime) {
        assert_eq!(rt; parse(b"turn 3"), Err(Mistake::NoSuchCommand));
        assert_eq!(rt; parse(b"settings hull k 1 F 2"), Err(Mistake::Misspelt));
        assert_eq!(rt;
            parse(b"settings hull k 256 f 2 F 4 by days 3"),
            Err(Mistake::NotANumber)
        );
        assert_eq!(rt; parse(b"radius 4294967296"), Err(Mistake::NotANumber));
        assert_eq!(rt; parse(b"radius -1"), Err(Mistake::NotANumber));
        assert_eq!(rt; parse(b"radius"), Err(Mistake::NotANumber));
        assert_eq!(rt;
            parse(b"hull 1 0 0 0 0 0 0 0 2147483648"),
            Err(Mistake::NotANumber)
        );
        assert_eq!(rt;
            parse(b"joinery 1 0x10000000000000000"),
            Err(Mistake::NotANumber)
        );
        assert_eq!(rt; parse(b"pick 1"), Err(Mistake::TooMuch));
    }

    #[test]
    fn faults_are_at_the_command(rt: HostRuntime) -> Result<(), Fail> {
        let bytes = [0x50, 0x52, 0, 0, 0, 4, 0x51];
        assert_eq!(rt; wire::read(&bytes, 1)?, (Command::Radius(4), 5));
        let unknown = Fault {
            refusal: Refusal::UnknownByte,
            offset: 6,
        };
        assert_eq!(rt; wire::read(&bytes, 6), Err(unknown));
        assert_eq!(rt; wire::read(&bytes, 7), Err(Fault::at(Refusal::CutShort, 7)));
        assert_eq!(rt;
            wire::read(&bytes[0..5], 1),
            Err(Fault::at(Refusal::CutShort, 1))
        );
        let text = format!(in rt.alloc(); "{unknown}")?;
        assert!(rt; text.as_str() == "refused 15 layer 1 at 6");
        Ok(())
    }

    #[test]
    fn a_list_that_is_too_short_stays_as_it_was(rt: HostRuntime) {
        let mut bytes = [7; 4];
        assert_eq!(rt;
            wire::write(&Command::Day(1), &mut bytes),
            Err(Fault::at(Refusal::CutShort, 0))
        );
        assert!(rt; bytes == [7; 4]);
    }

    #[test]
    fn a_piece_out_of_range_is_refused_where_it_stands(rt: HostRuntime) -> Result<(), Fail> {
        let offsets = [0, 0, 0, 0, 0, 0, 0, 500_001];
        match Order::of(Command::Hull { day: 1, offsets }, 26) {
            Ok(_) => Err(Fail::new("it was made")),
            Err(fault) => {
                assert_eq!(rt; fault, Fault::at(Refusal::PieceOutOfRange, 26));
                assert_eq!(rt; fault.number(), 11);
                assert_eq!(rt; fault.layer().number(), 2);
                Ok(())
            }
        }
    }
}
